ghost use Rattle.std.specs.Prelude.{◌≡◌};

use std::marker::Model;
use stn_core::Literals;

/// What becomes of a literal in a network.
#[derive(Drop)]
pub enum Fate {
    /// The network is consistent with it.
    Live,
    /// It closes this negative cycle with literals of the network.
    Dead(Literals),
}

/// One fate for each literal of a clause, in the order of its literals.
#[derive(Drop)]
pub struct Fates {
    fates: Vec<Fate>,
}

impl Model for Fates {
    ghost use Rattle.std.specs.Prelude.{List};
    ghost use Rattle.prune_rules.specs.declared.fate.Fate.{Fate as OneFate};

    ghost Value = { List OneFate };

    ghost view = { λ f. f.fates.items };
}

impl Fates {
    pub fn new(fates: Vec<Fate>) -> Self
        ensures { result ≡ fates.items }
    {
        Fates { fates }
    }

    pub fn as_slice(&self) -> &[Fate]
        ensures { result.now ≡ self.now }
    {
        self.fates.as_slice()
    }

    /// The fates in a `Vec`, without taking memory.
    pub fn into_vec(self) -> Vec<Fate>
        ensures { result.items ≡ self }
    {
        self.fates
    }
}

/// A literal of a clause that a network implies: its place in the clause, counted from 0, and a negative cycle of its
/// negation and literals of the network.
#[derive(Drop)]
pub struct Subsumed {
    pub place: usize,
    pub cycle: Literals,
}
