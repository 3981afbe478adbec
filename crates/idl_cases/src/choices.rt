//! The cases of conditions, which terms share.
ghost use Rattle.std.specs.Prelude.{◌≡◌, ◌<◌, ◌*◌, ◌^◌, IfOk, IfSome, length};
ghost use Rattle.idl_cases.specs.code.Bounded.{AreBounded, AreLimits};
ghost use Rattle.idl_cases.specs.code.CaseSums.{added_each, signed_cases};

use crate::bounds::Bounds;
use crate::cases::Cases;
use crate::listed::Case;
use std::alloc::{AllocError, Global};
use std::marker::Model;
use std::sync::Arc;

/// At least two cases, or their negatives.
#[cycle(cases)]
pub struct Choices {
    pub(crate) is_negated: bool,
    pub(crate) tree: Arc<Tree>,
}

/// Of two parts the one with fewer cases goes first, by a call, and the other one in the loop: so the calls in one another are no more
/// than the logarithm of the number of cases.
impl Drop for Choices {
    #[cycle(drops)]
    fn drop(mut self) {
        loop {
            let Choices {
                is_negated: _,
                tree,
            } = self;
            let Some(tree) = Arc::into_inner(tree) else {
                return;
            };
            match tree.part {
                Part::Branched {
                    condition: _,
                    denial: _,
                    yes,
                    no,
                } => {
                    let larger = if yes.len() < no.len() {
                        drop(yes);
                        no
                    } else {
                        drop(no);
                        yes
                    };
                    let Some(choices) = larger.into_choices() else {
                        return;
                    };
                    self = choices;
                }
                Part::Sum { first, second } => {
                    if first.len() < second.len() {
                        drop(first);
                        self = second;
                    } else {
                        drop(second);
                        self = first;
                    }
                }
                Part::Listed(_) => return,
            }
        }
    }
}

/// Cases as they are made, with how many they are.
#[derive(Drop)]
#[cycle(cases)]
pub(crate) struct Tree {
    pub(crate) count: usize,
    /// Of each case.
    pub(crate) bounds: Bounds,
    pub(crate) part: Part,
}

#[derive(Drop)]
#[cycle(cases)]
pub(crate) enum Part {
    /// The cases of the first where the condition's node is true, and then those of the second where the denial's is.
    Branched {
        condition: u32,
        denial: u32,
        yes: Cases,
        no: Cases,
    },
    /// The sum in each of the first's cases outside, and each of the second's inside.
    Sum {
        first: Choices,
        second: Choices,
    },
    /// One after the other.
    Listed(Vec<Case>),
}

impl Model for Choices {
    ghost use Rattle.std.specs.Prelude.{◌+◌, ◌*◌, List, length};
    ghost use Rattle.std.specs.Arc.{arc_value};
    ghost use Rattle.idl_cases.specs.Guarded.{CaseValue};
    ghost use Rattle.idl_cases.specs.code.CaseSums.{signed_cases};

    ghost Value = { List CaseValue };

    ghost view = { λ c. signed_cases c.is_negated (arc_value c.tree) };

    ghost size = { λ cases. 3 * length cases + 1 };

    ghost use Rattle.std.proofs.Common.{arith};
    ghost use Rattle.idl_cases.specs.code.CaseSums.{signed_count};

    ghost size_decreases = { λ a h. Prim.grind (arith, signed_count) };
}

impl Model for Tree {
    ghost use Rattle.std.specs.Prelude.{◌*◌, List, length};
    ghost use Rattle.idl_cases.specs.Guarded.{CaseValue};
    ghost use Rattle.idl_cases.specs.code.CaseTrees.{tree_in, IsTree};

    ghost Value = { List CaseValue };

    ghost view = { λ t. tree_in t.part };

    ghost invariant = { λ t. IsTree t.count t.bounds t.part };

    ghost size = { λ cases. 3 * length cases };

    ghost use Rattle.std.proofs.Common.{arith, length-append};
    ghost use Rattle.std.proofs.lemmas.List.{length-map};

    ghost size_decreases = { λ a h. Prim.grind (arith, length-append, length-map, h.fewer) };
}

impl Choices {
    /// The cases of a tree.
    pub(crate) fn of_tree(alloc: Global, tree: Tree) -> Result<Choices, AllocError>
        ensures { IfOk result (λ c. c ≡ tree) }
    {
        let tree = Arc::new(alloc, tree)?;
        Ok(Choices {
            is_negated: false,
            tree,
        })
    }

    /// The same cases or their negatives.
    pub(crate) fn copy(&self, is_negated: bool) -> Result<Choices, AllocError>
        ensures { IfOk result (λ c. c ≡ signed_cases is_negated self.now) }
    {
        let tree = Arc::try_clone(&self.tree)?;
        Ok(Choices {
            is_negated: self.is_negated != is_negated,
            tree,
        })
    }

    /// How many cases there are.
    pub fn len(&self) -> usize
        ensures count { result ≡ length self.now }
        ensures many { 1 < length self.now }
    {
        self.tree.len()
    }

    /// Of each case.
    pub(crate) fn bounds(&self) -> Bounds
        ensures limits { AreLimits result }
        ensures each { AreBounded result self.now }
    {
        self.tree.bounds()
    }

    /// The sum in each of the first's cases outside, and each of the second's inside. There is none where bounds on the two don't tell
    /// that it is within the limits.
    pub(crate) fn sum(
        alloc: Global,
        first: Choices,
        second: Choices,
    ) -> Result<Option<Choices>, AllocError>
        requires { length first * length second < 2 ^ 64 }
        ensures { IfOk result (λ o. IfSome o (λ c. c ≡ added_each first second)) }
    {
        let Some(bounds) = first.bounds().of_sum(second.bounds()) else {
            return Ok(None);
        };
        let count = first.len() * second.len();
        let tree = Tree {
            count,
            bounds,
            part: Part::Sum { first, second },
        };
        let choices = Choices::of_tree(alloc, tree)?;
        Ok(Some(choices))
    }
}

impl Tree {
    /// How many cases there are.
    fn len(&self) -> usize
        ensures count { result ≡ length self.now }
        ensures many { 1 < length self.now }
    {
        self.count
    }

    /// Of each case.
    fn bounds(&self) -> Bounds
        ensures limits { AreLimits result }
        ensures each { AreBounded result self.now }
    {
        self.bounds
    }
}
