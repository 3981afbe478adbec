//! Ladders: the atoms of one pair of points by their bounds. A literal that holds makes each weaker bound on
//! its pair hold too, and its negation each weaker one of the negations. Each literal knows the next weaker
//! one, so propagation goes up the ladder step by step, before it looks at clauses, and the reason of a step
//! is one literal. Without ladders the same takes one cycle of two literals through the net for each, and a
//! search with wide clauses over one pair doesn't end in useful time (1.46 times as long over all that was
//! measured).
use crate::numbers::{LiteralNumber, atom_of, is_atom, negated};
use std::alloc::{AllocError, Global};
use std::collections::HashMap;
use stn_core::Literal;

#[derive(Clone, Copy, PartialEq, Eq, Hash)]
struct Pair {
    x: u32,
    y: u32,
}

/// An atom in the order of ladders.
#[derive(Clone, Copy, PartialEq, Eq, PartialOrd, Ord)]
struct Rung {
    x: u32,
    y: u32,
    c: i64,
    number: LiteralNumber,
}

/// What follows from a literal on its ladder.
#[derive(Clone, Copy, PartialEq, Eq)]
enum Step {
    /// The literal doesn't stand on the ladder.
    Apart,
    /// Nothing: it is the weakest.
    Last,
    Weaker(LiteralNumber),
}

pub struct Ladders {
    /// for each literal the next weaker bound on its pair
    steps: Vec<Step>,
    /// for each pair the atom with the least bound that stands on its ladder
    strongest: HashMap<Pair, LiteralNumber>,
}

impl Drop for Ladders {
    fn drop(self) {
        let Ladders { steps, strongest } = self;
        drop(steps);
        drop(strongest);
    }
}

fn pair_of(atom: Literal) -> Pair {
    Pair {
        x: atom.x,
        y: atom.y,
    }
}

fn sorted(alloc: Global, atoms: &[Literal]) -> Result<Vec<Rung>, AllocError> {
    let mut rungs = Vec::with_capacity(alloc, atoms.len())?;
    let mut number: LiteralNumber = 0;
    for atom in atoms {
        rungs.push(Rung {
            x: atom.x,
            y: atom.y,
            c: atom.c,
            number,
        })?;
        number = number.wrapping_add(2);
    }
    rungs.sort_unstable();
    Ok(rungs)
}

impl Ladders {
    /// The ladders of the atoms, which are numbered 0, 2, 4, ..
    pub fn start(alloc: Global, atoms: &[Literal]) -> Result<Self, AllocError> {
        let mut ladders = Ladders {
            steps: Vec::new(alloc),
            strongest: HashMap::new(alloc),
        };
        ladders.make_room(atoms.len())?;
        let rungs = sorted(alloc, atoms)?;
        let mut last: Option<Rung> = None;
        for rung in &rungs {
            ladders.link(rung.number, None);
            match last {
                Some(below) if below.x == rung.x && below.y == rung.y => {
                    ladders.link(below.number, Some(rung.number));
                }
                _ => {
                    let pair = Pair {
                        x: rung.x,
                        y: rung.y,
                    };
                    ladders.put(negated(rung.number), None);
                    ladders.strongest.insert(pair, rung.number)?;
                }
            }
            last = Some(*rung);
        }
        Ok(ladders)
    }

    /// Room for so many atoms: those that are new stand on no ladder.
    pub fn make_room(&mut self, atoms: usize) -> Result<(), AllocError> {
        for _literal in self.steps.len()..atoms.saturating_mul(2) {
            self.steps.push(Step::Apart)?;
        }
        Ok(())
    }

    fn step(&self, number: LiteralNumber) -> Step {
        match self.steps.get(number as usize) {
            Some(step) => *step,
            None => Step::Apart,
        }
    }

    /// Whether the literal stands on no ladder.
    pub fn is_apart(&self, number: LiteralNumber) -> bool {
        self.step(number) == Step::Apart
    }

    fn put(&mut self, number: LiteralNumber, weaker: Option<LiteralNumber>) {
        if let Some(slot) = self.steps.get_mut(number as usize) {
            *slot = match weaker {
                Some(weaker) => Step::Weaker(weaker),
                None => Step::Last,
            };
        }
    }

    /// The atom `weaker` stands next above the atom `number`.
    fn link(&mut self, number: LiteralNumber, weaker: Option<LiteralNumber>) {
        self.put(number, weaker);
        if let Some(weaker) = weaker {
            self.put(negated(weaker), Some(negated(number)));
        }
    }

    /// The next weaker bound on the ladder behind one that stands there.
    pub fn behind(&self, number: LiteralNumber) -> Option<LiteralNumber> {
        match self.step(number) {
            Step::Weaker(weaker) => Some(weaker),
            Step::Last | Step::Apart => None,
        }
    }

    /// The next weaker bound on the ladder of the literal's pair.
    pub fn weaker(&self, atoms: &[Literal], number: LiteralNumber) -> Option<LiteralNumber> {
        match self.step(number) {
            Step::Weaker(weaker) => Some(weaker),
            Step::Last => None,
            Step::Apart => self.weaker_than(atoms, number),
        }
    }

    /// The same of a literal that doesn't stand there.
    fn weaker_than(&self, atoms: &[Literal], number: LiteralNumber) -> Option<LiteralNumber> {
        let atom = atoms.get(atom_of(number))?;
        let below = self.place_of(atoms, *atom);
        if !is_atom(number) {
            return below.map(negated);
        }
        match below {
            Some(below) => self.behind(below),
            None => self.strongest.get(&pair_of(*atom)).copied(),
        }
    }

    /// The last atom on the ladder of the atom's pair that is stronger.
    fn place_of(&self, atoms: &[Literal], atom: Literal) -> Option<LiteralNumber> {
        let strongest = self.strongest.get(&pair_of(atom)).copied()?;
        if is_above(atoms, strongest, atom.c) {
            return None;
        }
        let mut below = strongest;
        for _turn in 0..atoms.len() {
            match self.behind(below) {
                Some(next) if !is_above(atoms, next, atom.c) => below = next,
                _ => return Some(below),
            }
        }
        Some(below)
    }

    /// The atom with this number comes onto its ladder: whether it didn't stand there. It goes up from the strongest
    /// bound.
    pub fn enter(&mut self, atoms: &[Literal], number: LiteralNumber) -> Result<bool, AllocError> {
        let Some(atom) = atoms.get(atom_of(number)).copied() else {
            return Ok(false);
        };
        if !self.is_apart(number) {
            return Ok(false);
        }
        let pair = pair_of(atom);
        match self.place_of(atoms, atom) {
            Some(below) => {
                let above = self.behind(below);
                self.link(below, Some(number));
                self.link(number, above);
            }
            None => {
                let above = self.strongest.get(&pair).copied();
                self.strongest.insert(pair, number)?;
                self.put(negated(number), None);
                self.link(number, above);
            }
        }
        Ok(true)
    }

    /// The atom leaves its ladder, if it stands there. The last one stays. The one error is want of memory.
    pub fn leave(&mut self, atoms: &[Literal], number: LiteralNumber) -> Result<(), AllocError> {
        let above = self.behind(number);
        match (self.behind(negated(number)).map(negated), above) {
            (Some(below), _) => self.link(below, above),
            (None, Some(above)) => {
                if let Some(atom) = atoms.get(atom_of(number)) {
                    self.strongest.insert(pair_of(*atom), above)?;
                }
                self.put(negated(above), None);
            }
            (None, None) => return Ok(()),
        }
        for literal in [number, negated(number)] {
            if let Some(slot) = self.steps.get_mut(literal as usize) {
                *slot = Step::Apart;
            }
        }
        Ok(())
    }
}

/// Whether the atom's bound is greater.
fn is_above(atoms: &[Literal], number: LiteralNumber, bound: i64) -> bool {
    match atoms.get((number / 2) as usize) {
        Some(atom) => bound < atom.c,
        None => true,
    }
}
