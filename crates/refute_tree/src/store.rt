ghost use Rattle.std.specs.Prelude.{◌≡◌, ◌≤◌, ◌∷◌, [], ◌++◌, length, map, take, drop, All, OnOk, OnErr, IfOk};
ghost use Rattle.refute_tree.specs.declared.step.Step.TheVariants.{Cycle, Input, Lemma as Cited, Clash, Either};
ghost use Rattle.refute_tree.specs.code.Lists.{SlicesAreWhole, steps_of_slices};
ghost use Rattle.refute_tree.specs.Moves.{moved_step, MovesWithin, listed_number, named_step, NoneGrows};
ghost use Rattle.refute_tree.specs.code.Paths.{IsNarrow, IsShortPath};
ghost use Rattle.refute_tree.specs.code.Store.{parts, narrow_parts, step_by, IsWhole, AreNumberKinds, AreLiteralKinds};
ghost use Rattle.refute_tree.specs.Pairs.{pair_of};
ghost use Rattle.refute_tree.specs.code.Views.{literals_of, step_seen};

use crate::cycle::Cycle as CycleView;
use crate::kind::Kind;
use crate::lists::{Lists, Slices, place_of};
use crate::moving::{list_numbers, move_numbers};
use crate::narrow::{is_narrow, is_short_path};
use crate::reader::{Reader, StepView};
use std::alloc::{AllocError, Global};
use std::marker::Model;
use stn_core::{Literal, negate};

/// A list of steps, without memory of its own for each.
///
/// A step takes a byte, and beside it: `Input`, `Lemma` and `Clash` with a number below 2^32 take 4, and with another 8.
/// Where the points are below 2^16 and the bounds are of 32 bits, `Either`, or a literal and its negation, takes 8, and
/// a cycle of which each literal begins at the point where the one before it ends takes 6, and 6 for each literal. Else
/// they take 16, and 8 and 16 for each literal.
pub struct Steps {
    lists: Lists,
}

impl Drop for Steps {
    fn drop(self) {
        let Steps { lists } = self;
        drop(lists);
    }
}

impl Model for Steps {
    ghost use Rattle.std.specs.Prelude.{List};
    ghost use Rattle.refute_tree.specs.declared.step.Step.{Step};
    ghost use Rattle.refute_tree.specs.code.Lists.{ListsAreWhole, steps_of_lists};

    ghost Value = { List Step };

    ghost view = { λ s. steps_of_lists s.lists };

    ghost invariant = { λ s. ListsAreWhole s.lists };
}

impl Steps {
    pub fn new(alloc: Global) -> Self
        ensures { result ≡ [] }
    {
        Steps {
            lists: Lists::new(alloc),
        }
    }

    // Adds the steps of the slices; without memory, the list is as before.
    fn extend(&mut self, more: Slices<'_>) -> Result<(), AllocError>
        requires { SlicesAreWhole more }
        ensures ok { OnOk result (self.new ≡ self.old ++ steps_of_slices more.entry) }
        ensures err { OnErr result (self.new ≡ self.old) }
    {
        self.lists.extend(more)?;
        Ok(())
    }

    // Adds one step with these numbers and literals; without memory, the list is as before.
    fn add(
        &mut self,
        kind: Kind,
        small: &[u32],
        large: &[usize],
        points: &[u16],
        bounds: &[i32],
        literals: &[Literal],
    ) -> Result<(), AllocError>
        requires { IsWhole (kind ∷ [])
            (parts small.now large.now points.now bounds.now literals.now) }
        ensures ok { OnOk result (self.new ≡ self.old
            ++ step_by kind (parts small.now large.now points.now bounds.now literals.now) ∷ []) }
        ensures err { OnErr result (self.new ≡ self.old) }
    {
        let kinds = [kind];
        self.extend(Slices {
            kinds: kinds.as_slice(),
            small,
            large,
            points,
            bounds,
            literals,
        })
    }

    // Adds a step of a narrow literal.
    fn add_narrow(&mut self, kind: Kind, literal: Literal) -> Result<(), AllocError>
        requires narrow { IsNarrow literal }
        requires whole { IsWhole (kind ∷ []) (narrow_parts literal) }
        ensures ok { OnOk result (self.new ≡ self.old ++ step_by kind (narrow_parts literal) ∷ []) }
        ensures err { OnErr result (self.new ≡ self.old) }
    {
        self.lists.push_narrow(kind, literal)?;
        Ok(())
    }

    // Adds a step of a small number.
    fn add_small(&mut self, kind: Kind, number: u32) -> Result<(), AllocError>
        requires { IsWhole (kind ∷ []) (parts (number ∷ []) [] [] [] []) }
        ensures ok { OnOk result (self.new ≡ self.old ++ step_by kind (parts (number ∷ []) [] [] [] []) ∷ []) }
        ensures err { OnErr result (self.new ≡ self.old) }
    {
        self.lists.push_small(kind, number)?;
        Ok(())
    }

    // Adds a step of a literal, of the one kind or of the other.
    fn add_literal(
        &mut self,
        literal: Literal,
        kind: Kind,
        large_kind: Kind,
    ) -> Result<(), AllocError>
        requires kinds { AreLiteralKinds kind large_kind }
        ensures ok { OnOk result (self.new
            ≡ self.old ++ step_by large_kind (parts [] [] [] [] (literal ∷ [])) ∷ []) }
        ensures err { OnErr result (self.new ≡ self.old) }
    {
        if is_narrow(literal) {
            self.add_narrow(kind, literal)
        } else {
            self.add(large_kind, &[], &[], &[], &[], [literal].as_slice())
        }
    }

    // Adds a step of a number, of the one kind or of the other.
    fn add_number(&mut self, number: usize, kind: Kind, large_kind: Kind) -> Result<(), AllocError>
        requires kinds { AreNumberKinds kind large_kind }
        ensures ok { OnOk result (self.new
            ≡ self.old ++ step_by large_kind (parts [] (number ∷ []) [] [] []) ∷ []) }
        ensures err { OnErr result (self.new ≡ self.old) }
    {
        if number < 1 << 32 {
            self.add_small(kind, number as u32)
        } else {
            self.add(large_kind, &[], [number].as_slice(), &[], &[], &[])
        }
    }

    // Adds a cycle that is a short path.
    fn add_path(&mut self, literals: &[Literal]) -> Result<(), AllocError>
        requires { IsShortPath literals.now }
        ensures ok { OnOk result (self.new ≡ self.old ++ Cycle literals.now ∷ []) }
        ensures err { OnErr result (self.new ≡ self.old) }
    {
        self.lists.push_path(literals)?;
        Ok(())
    }

    /// Adds a cycle; without memory, the list is as before.
    pub fn push_cycle(&mut self, literals: &[Literal]) -> Result<(), AllocError>
        ensures ok { OnOk result (self.new ≡ self.old ++ Cycle literals.now ∷ []) }
        ensures err { OnErr result (self.new ≡ self.old) }
    {
        if let [first, second] = literals {
            if *second == negate(*first) {
                return self.push_pair(*first);
            }
        }
        if is_short_path(literals) {
            return self.add_path(literals);
        }
        let count = [literals.len()];
        self.add(Kind::Cycle, &[], count.as_slice(), &[], &[], literals)
    }

    // Adds a cycle that was read, without a look at its literals where they are kept as a path.
    fn push_seen(&mut self, cycle: CycleView<'_>) -> Result<(), AllocError>
        ensures ok { OnOk result (self.new ≡ self.old ++ Cycle (literals_of cycle.entry) ∷ []) }
        ensures err { OnErr result (self.new ≡ self.old) }
    {
        match cycle {
            CycleView::Literals(literals) => self.push_cycle(literals),
            CycleView::Path(path) => {
                let count = [path.bounds.len() as u32];
                self.add(
                    Kind::Path,
                    count.as_slice(),
                    &[],
                    path.points,
                    path.bounds,
                    &[],
                )
            }
        }
    }

    /// Adds the cycle of the literal and its negation; without memory, the list is as before.
    pub fn push_pair(&mut self, literal: Literal) -> Result<(), AllocError>
        ensures ok { OnOk result (self.new ≡ self.old ++ Cycle (pair_of literal) ∷ []) }
        ensures err { OnErr result (self.new ≡ self.old) }
    {
        self.add_literal(literal, Kind::Pair, Kind::LargePair)
    }

    /// Adds the cases of a clause of the problem; without memory, the list is as before.
    pub fn push_input(&mut self, i: usize) -> Result<(), AllocError>
        ensures ok { OnOk result (self.new ≡ self.old ++ Input i ∷ []) }
        ensures err { OnErr result (self.new ≡ self.old) }
    {
        self.add_number(i, Kind::Input, Kind::LargeInput)
    }

    /// Adds the cases of an earlier lemma's clause; without memory, the list is as before.
    pub fn push_lemma(&mut self, j: usize) -> Result<(), AllocError>
        ensures ok { OnOk result (self.new ≡ self.old ++ Cited j ∷ []) }
        ensures err { OnErr result (self.new ≡ self.old) }
    {
        self.add_number(j, Kind::Lemma, Kind::LargeLemma)
    }

    /// Adds a clash with a clause of the problem; without memory, the list is as before.
    pub fn push_clash(&mut self, i: usize) -> Result<(), AllocError>
        ensures ok { OnOk result (self.new ≡ self.old ++ Clash i ∷ []) }
        ensures err { OnErr result (self.new ≡ self.old) }
    {
        self.add_number(i, Kind::Clash, Kind::LargeClash)
    }

    /// Adds the cases of a literal and its negation; without memory, the list is as before.
    pub fn push_either(&mut self, literal: Literal) -> Result<(), AllocError>
        ensures ok { OnOk result (self.new ≡ self.old ++ Either literal ∷ []) }
        ensures err { OnErr result (self.new ≡ self.old) }
    {
        self.add_literal(literal, Kind::Either, Kind::LargeEither)
    }

    /// Adds the step that was read; without memory, the list is as before.
    pub fn push(&mut self, step: StepView<'_>) -> Result<(), AllocError>
        ensures ok { OnOk result (self.new ≡ self.old ++ step_seen step.entry ∷ []) }
        ensures err { OnErr result (self.new ≡ self.old) }
    {
        match step {
            StepView::Cycle(cycle) => self.push_seen(cycle),
            StepView::Pair(literal) => self.push_pair(literal),
            StepView::Input(i) => self.push_input(i),
            StepView::Lemma(j) => self.push_lemma(j),
            StepView::Clash(i) => self.push_clash(i),
            StepView::Either(literal) => self.push_either(literal),
        }
    }

    /// Adds the steps of another list; without memory, the list is as before.
    pub fn append(&mut self, other: &Steps) -> Result<(), AllocError>
        ensures ok { OnOk result (self.new ≡ self.old ++ other.now) }
        ensures err { OnErr result (self.new ≡ self.old) }
    {
        self.extend(other.lists.slices())
    }

    /// An equal list in memory of its own.
    pub fn copy(&self, alloc: Global) -> Result<Steps, AllocError>
        ensures { IfOk result (λ steps. steps ≡ self.now) }
    {
        Ok(Steps {
            lists: self.lists.copy(alloc)?,
        })
    }

    /// Gives back the memory that the list has taken in advance.
    pub fn shrink_to_fit(&mut self)
        ensures { self.new ≡ self.old }
    {
        self.lists.shrink_to_fit();
    }

    /// Takes out all steps, and keeps their memory for others.
    pub fn clear(&mut self)
        ensures { self.new ≡ [] }
    {
        self.lists.clear();
    }

    pub fn len(&self) -> usize
        ensures { result ≡ length self.now }
    {
        self.lists.kinds.len()
    }

    /// Takes out the steps from one place up to another. It takes time in those from the first of them on.
    pub fn remove(&mut self, low: usize, high: usize)
        requires order { low ≤ high }
        requires within { high ≤ length self.old }
        ensures { self.new ≡ take low self.old ++ drop high self.old }
    {
        let from = place_of(self.lists.slices(), low);
        let until = place_of(self.lists.slices(), high);
        self.lists.cut_out(from, until);
    }

    /// Keeps the first so many steps, or all where there are fewer. It takes time in the steps that go.
    pub fn truncate(&mut self, count: usize)
        ensures { self.new ≡ take count self.old }
    {
        let all = self.len();
        if count < all {
            self.remove(count, all);
        }
    }

    /// Moves the references to lemmas from the number `seen` on, so that they follow the first `base` lemmas. It takes
    /// no memory.
    pub fn move_lemmas(&mut self, seen: usize, base: usize)
        requires { All (MovesWithin seen base) self.old }
        ensures { self.new ≡ map (moved_step seen base) self.old }
    {
        move_numbers(
            self.lists.kinds.as_slice(),
            self.lists.small.as_mut_slice(),
            self.lists.large.as_mut_slice(),
            seen,
            base,
        );
    }

    /// Gives the references to lemmas from the number `seen` on the numbers of the list, or `end` where it is too
    /// short. None of them is to become greater. It takes no memory.
    pub fn renumber_lemmas(&mut self, seen: usize, numbers: &[usize], end: usize)
        requires { NoneGrows (listed_number seen numbers.now end) }
        ensures { self.new ≡ map (named_step (listed_number seen numbers.now end)) self.old }
    {
        list_numbers(
            self.lists.kinds.as_slice(),
            self.lists.small.as_mut_slice(),
            self.lists.large.as_mut_slice(),
            seen,
            numbers,
            end,
        );
    }

    /// Reads the steps, from the first on.
    pub fn reader(&self) -> Reader<'_>
        ensures { result ≡ self.now }
    {
        Reader::new(self.lists.slices())
    }
}
