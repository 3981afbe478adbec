//! Laws of the text: functions that do nothing, and tell their callers' proofs a fact.
ghost use Rattle.std.specs.Prelude.{◌≡◌, ◌∷◌, [], ◌^◌, map, pos, negsuc, true, Some, None};
ghost use Rattle.stn_core.specs.declared.named.NamedValue.TheVariants.{Int, Truth};
ghost use Rattle.refute_tree.specs.declared.step.Step.TheVariants.{Clash};
ghost use Rattle.refute_tree.specs.Examples.{two_orders_refutation};
ghost use Rattle.kept_lemmas.specs.declared.item.Item.TheVariants.{Own, Keep};
ghost use Rattle.cert_text.specs.declared.entry.Version.TheVariants.{One, Two};
ghost use Rattle.cert_text.specs.declared.entry.FileEntry.TheVariants.{Unsat, Best, Unbounded};
ghost use Rattle.cert_text.specs.Form.{end_sexpr};
ghost use Rattle.cert_read.specs.Parts.{index_of, point_of, number_of, whole_of, step_of, item_of, entry_of};
ghost use Rattle.cert_read.specs.WorkedForms.{two_orders_sexpr, minus_zero, clash_sexpr, clash_of_two, end_with_more};
ghost use Rattle.cert_read.specs.WorkedForms.{keep_sexpr, keep_of_one, kept_entry_sexpr};
ghost use Rattle.cert_read.specs.WorkedForms.{best_sexpr, best_without_values, unbounded_sexpr, point_twice, points_beyond};
ghost use Rattle.cert_read.specs.WorkedForms.{beyond_points, beyond_limit, greatest_value, beyond_values};
ghost use Rattle.cert_read.specs.Laws.{OneCertificate, OneRest, CertificateReadsBack, EntryIsItsForm};
ghost use Rattle.cert_read.specs.Laws.{ReadEntryFits, ReadEntryIsForm, TextOfValue, ValueOfText};

/// A text is one thing at most at each place: a certificate with its entries, or refused for one reason. The same holds
/// of what stands behind a header.
pub fn one_certificate()
    ensures certificate { OneCertificate }
    ensures entries { OneRest }
{
    smt_lex::one_reading();
    smt_sexpr::one_outcome();
}

/// A certificate that is written behind a gap, up to the end of the text, is read as the entries that were written, where
/// the numbers are within the limits.
pub fn certificate_reads_back()
    ensures text { CertificateReadsBack }
    ensures entry { EntryIsItsForm }
{
    cert_text::reads_back_entry();
}

/// Worked examples of what s-expressions stand for: the refutation of x < y and y < x, what is near a limit or near a
/// form, and what version 2 alone has.
pub fn examples_law()
    ensures entry { entry_of One two_orders_sexpr ≡ Some (Unsat (map Own two_orders_refutation)) }
    ensures minus_zero { number_of minus_zero ≡ None }
    ensures beyond_points { point_of beyond_points ≡ Some 4294967295 }
    ensures beyond_limit { index_of beyond_limit ≡ None }
    ensures greatest_value { whole_of greatest_value ≡ Some (pos (2 ^ 90)) }
    ensures beyond_values { whole_of beyond_values ≡ None }
    ensures clash_in_one { step_of One clash_sexpr ≡ None }
    ensures clash_in_two { step_of Two clash_sexpr ≡ Some (Clash 0) }
    ensures clash_of_two { step_of Two clash_of_two ≡ None }
    ensures keep_in_one { item_of One keep_sexpr ≡ None }
    ensures keep_in_two { item_of Two keep_sexpr ≡ Some (Keep (record { entry = 2; item = 0 })) }
    ensures keep_of_one { item_of Two keep_of_one ≡ None }
    ensures kept_entry { entry_of Two kept_entry_sexpr ≡ Some (Unsat (Keep (record { entry = 2; item = 0 }) ∷ [])) }
    ensures best { entry_of One best_sexpr ≡ Some (Best (negsuc 0) (Int (pos 0) ∷ Truth true ∷ []) []) }
    ensures best_without_values { entry_of One best_without_values ≡ None }
    ensures unbounded { entry_of One unbounded_sexpr ≡ Some (Unbounded (pos 0 ∷ pos 0 ∷ negsuc 0 ∷ []) (1 ∷ [])) }
    ensures point_twice { entry_of One point_twice ≡ None }
    ensures points_beyond { entry_of One points_beyond ≡ Some (Unbounded [] (0 ∷ 4294967295 ∷ 4294967295 ∷ [])) }
    ensures end { entry_of Two end_sexpr ≡ None }
    ensures end_with_more { entry_of Two end_with_more ≡ None }
{}

/// What is read as an entry has numbers within the limits, and the entry's own form, where no point in it is the greatest
/// one, as which all greater ones are read.
pub fn only_entries()
    ensures fits { ReadEntryFits }
    ensures form { ReadEntryIsForm }
{}

/// A numeral's digits are those of its value, and the digits of a number have it as their value.
pub fn numeral_law()
    ensures text { TextOfValue }
    ensures value { ValueOfText }
{}
