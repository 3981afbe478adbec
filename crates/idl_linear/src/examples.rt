//! What the definitions say of small inputs.
ghost use Rattle.std.specs.Prelude.{◌≡◌, ◌∷◌, [], true, false, Ok, Err, pos, negsuc};
ghost use Rattle.idl_linear.specs.declared.error.DifferenceRefusal.TheVariants.{NotADifference, BoundTooLarge};
ghost use Rattle.idl_linear.specs.Linear.{sum_of, negative_of, less_others, is_limited};
ghost use Rattle.idl_linear.specs.Differences.{difference_of};
ghost use Rattle.idl_linear.specs.Examples.{x, y, number, summand, plus, many, difference};

/// Sums, differences and their limits, where x is time point 1 and y is time point 2.
#[tactic(auto, unfolding(crate::specs::Linear::sum_of))]
pub fn worked_linear_terms()
    ensures sum { plus x y
        ≡ record { summands = summand 1 (pos 1) ∷ summand 2 (pos 1) ∷ []; constant = pos 0 } }
    ensures other_order { plus y x ≡ plus x y }
    ensures twice { plus x x ≡ many (pos 2) }
    ensures back { sum_of (x ∷ x ∷ negative_of x ∷ []) ≡ x }
    ensures cancelled { less_others (x ∷ x ∷ []) ≡ number 0 }
    ensures others { less_others (number 7 ∷ x ∷ number 3 ∷ [])
        ≡ record { summands = summand 1 (negsuc 0) ∷ []; constant = pos 4 } }
    ensures negative { less_others (plus x (number 3) ∷ [])
        ≡ record { summands = summand 1 (negsuc 0) ∷ []; constant = negsuc 2 } }
    ensures greatest_coefficient { is_limited (many (pos 1048576)) ≡ true }
    ensures coefficient_beyond { is_limited (many (pos 1048577)) ≡ false }
    ensures least_coefficient { is_limited (many (negsuc 1048575)) ≡ true }
    ensures greatest_constant { is_limited (number 4611686018427387904) ≡ true }
    ensures constant_beyond { is_limited (number 4611686018427387905) ≡ false }
{}

/// Comparisons, where x is time point 1 and y is time point 2.
#[tactic(auto, unfolding(crate::specs::Linear::sum_of, crate::specs::Differences::difference_of))]
pub fn worked_comparisons()
    ensures numbers { difference_of (plus x (number 3)) (plus y (number 1)) ≡ Ok (difference 1 2 (negsuc 1)) }
    ensures exchanged { difference_of (plus y (number 1)) (plus x (number 3)) ≡ Ok (difference 2 1 (pos 2)) }
    ensures both_sides { difference_of (plus x y) y ≡ Ok (difference 1 0 (pos 0)) }
    ensures below { difference_of (number 5) x ≡ Ok (difference 0 1 (negsuc 4)) }
    ensures itself { difference_of x x ≡ Ok (difference 0 0 (pos 0)) }
    ensures twice { difference_of (plus x x) x ≡ Ok (difference 1 0 (pos 0)) }
    ensures sum { difference_of (plus x y) (number 3) ≡ Err NotADifference }
    ensures two { difference_of (plus x x) y ≡ Err NotADifference }
    ensures greatest { difference_of x (number 1152921504606846976) ≡ Ok (difference 1 0 (pos 1152921504606846976)) }
    ensures beyond { difference_of x (number 1152921504606846977) ≡ Err BoundTooLarge }
    ensures least { difference_of (number 1152921504606846976) x ≡ Ok (difference 0 1 (negsuc 1152921504606846975)) }
    ensures sum_first { difference_of (plus x y) (number 1152921504606846977) ≡ Err NotADifference }
{}
