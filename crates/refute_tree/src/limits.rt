ghost use Rattle.std.specs.Prelude.{◌≡◌};
ghost use Rattle.refute_tree.specs.Limits.{lemmas_limit};
ghost use Rattle.refute_tree.specs.declared.limits.TheConstants.{LEMMAS_LIMIT};

/// The greatest count of lemmas in one list to whose end a batch can be moved.
pub const LEMMAS_LIMIT: usize = 1 << 32;

/// The limit that the definitions state is that of the code.
pub fn limits_law()
    ensures { lemmas_limit ≡ LEMMAS_LIMIT }
{}
