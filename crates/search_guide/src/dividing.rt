//! By which literal a search divides its cube, of those of the problem's clauses.
//!
//! Where others wait for a half, it is of the most active atoms the one that short clauses have on both sides. Then each
//! half loses as much as the other, and clauses of both become shorter. The most active one by itself says what the
//! last dozen conflicts were about, and no more: divided by it four workers took 1.2 to 1.9 times the conflicts on
//! mutual exclusion and planning.
//!
//! Where nobody waits, a pure literal that is fixed at the root is better: the half against it is refuted at once, and
//! the other one is the whole again.
use crate::assignment::Truth;
use crate::guide::Guide;
use crate::numbers::{LiteralNumber, atom_of, narrow, negated};
use stn_core::Literal;

/// So many of the most active atoms are weighed.
const WEIGHED: usize = 30;

/// So many words of 64 bits each mark the atoms of those that are weighed.
const MARKS: usize = 8;

/// A clause of more literals weighs as much as one of so many.
const MOST_LITERALS: usize = 60;

/// So much each side has, so that an atom on one side alone isn't worth nothing.
const LITTLE: f64 = 1e-30;

/// A literal by its place in a clause of the problem.
#[derive(Clone, Copy)]
struct Candidate {
    number: LiteralNumber,
    clause: usize,
    place: usize,
    activity: f64,
    /// what the clauses weigh that have the literal, and those that have its negation
    with: f64,
    against: f64,
}

impl Candidate {
    fn merit(&self) -> f64 {
        (self.with + LITTLE) * (self.against + LITTLE)
    }
}

/// The most active of the literals that were offered, one of each atom.
#[derive(Drop)]
struct Candidates {
    found: [Option<Candidate>; WEIGHED],
    /// only a more active one has a place
    least: f64,
    /// a bit for each remainder of an atom's number that a literal has or had: most literals of the clauses are told by it
    marks: [u64; MARKS],
}

/// What a clause weighs of which so many literals are open: half as much with each one more.
fn weight(open: usize) -> f64 {
    let mut weight = 1.0;
    for _literal in 0..open.min(MOST_LITERALS) {
        weight *= 0.5;
    }
    weight
}

/// The word and the bit that mark the literal's atom.
fn mark_of(literal: LiteralNumber) -> (usize, u64) {
    let remainder = atom_of(literal) % (64 * MARKS);
    (remainder / 64, 1 << (remainder % 64))
}

impl Candidates {
    /// None was offered.
    fn new() -> Self {
        Candidates {
            found: [None; WEIGHED],
            least: 0.0,
            marks: [0; MARKS],
        }
    }

    /// Notes that the literal's atom may be among those that were found.
    fn mark(&mut self, literal: LiteralNumber) {
        let (place, bit) = mark_of(literal);
        if let Some(word) = self.marks.get_mut(place) {
            *word |= bit;
        }
    }

    /// Whether the literal's atom may be among those that were found.
    fn is_marked(&self, literal: LiteralNumber) -> bool {
        let (place, bit) = mark_of(literal);
        match self.marks.get(place) {
            Some(word) => word & bit != 0,
            None => false,
        }
    }

    /// Whether an atom of this activity may have a place.
    fn wants(&self, activity: f64) -> bool {
        activity > self.least
    }

    /// Whether there is a literal of the atom.
    fn has_atom(&self, number: LiteralNumber) -> bool {
        for slot in self.found.iter() {
            if let Some(candidate) = slot {
                if atom_of(candidate.number) == atom_of(number) {
                    return true;
                }
            }
        }
        false
    }

    /// The literal in place of the least active one, where it is more active.
    fn offer(&mut self, candidate: Candidate) {
        if !self.wants(candidate.activity) || self.has_atom(candidate.number) {
            return;
        }
        self.mark(candidate.number);
        let least = self.least;
        let mut next = candidate.activity;
        let mut is_placed = false;
        for slot in self.found.iter_mut() {
            let activity = match slot {
                Some(other) => other.activity,
                None => 0.0,
            };
            if !is_placed && activity <= least {
                *slot = Some(candidate);
                is_placed = true;
            } else if activity < next {
                next = activity;
            }
        }
        self.least = next;
    }

    /// A clause that weighs so much has this literal.
    fn weigh(&mut self, literal: LiteralNumber, weight: f64) {
        if !self.is_marked(literal) {
            return;
        }
        for slot in self.found.iter_mut() {
            if let Some(candidate) = slot {
                if candidate.number == literal {
                    candidate.with += weight;
                } else if candidate.number == negated(literal) {
                    candidate.against += weight;
                }
            }
        }
    }

    /// The clause and the place of the best literal.
    fn best(&self) -> Option<(usize, usize)> {
        let mut best = None;
        let mut most = 0.0;
        for slot in self.found.iter() {
            if let Some(candidate) = slot {
                if candidate.merit() > most {
                    most = candidate.merit();
                    best = Some((candidate.clause, candidate.place));
                }
            }
        }
        best
    }
}

impl Guide {
    /// The place of a clause of the problem, by number and place, whose literal is the best to divide the cube by.
    pub fn dividing(&self, cube: &[Literal]) -> Option<(usize, usize)> {
        let is_alone = !self.policy().shares || self.hall_set.is_under_way();
        if is_alone {
            if let Some(place) = self.fixed_place(cube) {
                return Some(place);
            }
        }
        self.balanced_place()
    }

    /// Where the least active pure literal stands of those that are fixed at the root, but not by the cube. Lemmas under a
    /// cube may name its literals, so that one that takes part in conflicts would make them longer.
    fn fixed_place(&self, cube: &[Literal]) -> Option<(usize, usize)> {
        let mut best = None;
        let mut least = f64::MAX;
        for clause in 0..self.clauses.inputs() {
            for (place, literal) in self.clauses.literals(narrow(clause)).iter().enumerate() {
                let activity = self.activities.of(*literal);
                if activity < least
                    && (self.is_pure(*literal) || self.hall_set.is_under_way())
                    && self.is_fixed(*literal)
                    && !self.is_among(*literal, cube)
                {
                    least = activity;
                    best = Some((clause, place));
                }
            }
        }
        best
    }

    /// Where the literal stands that clauses weigh most on both sides, of the most active ones.
    fn balanced_place(&self) -> Option<(usize, usize)> {
        let mut candidates = self.candidates();
        let clauses = self.clauses.inputs().saturating_add(self.clauses.entries());
        for clause in 0..clauses {
            let clause = narrow(clause);
            if let Some(open) = self.open_at_root(clause) {
                let weight = weight(open);
                for literal in self.clauses.literals(clause) {
                    candidates.weigh(*literal, weight);
                }
            }
        }
        candidates.best()
    }

    /// The most active literals of the problem that aren't fixed at the root.
    fn candidates(&self) -> Candidates {
        let mut candidates = Candidates::new();
        for clause in 0..self.clauses.inputs() {
            for (place, literal) in self.clauses.literals(narrow(clause)).iter().enumerate() {
                let activity = self.activities.of(*literal);
                if candidates.wants(activity) && !self.is_fixed(*literal) {
                    candidates.offer(Candidate {
                        number: *literal,
                        clause,
                        place,
                        activity,
                        with: 0.0,
                        against: 0.0,
                    });
                }
            }
        }
        candidates
    }

    /// How many literals of the clause aren't fixed at the root. None where one holds there.
    fn open_at_root(&self, clause: u32) -> Option<usize> {
        let mut open = 0usize;
        for literal in self.clauses.literals(clause) {
            if !self.is_fixed(*literal) {
                open = open.saturating_add(1);
            } else if self.truth(*literal) == Truth::True {
                return None;
            }
        }
        Some(open)
    }

    /// Whether the literal, or its negation, stands on the trail at the root.
    fn is_fixed(&self, number: LiteralNumber) -> bool {
        self.truth(number) != Truth::Open && self.assignment.level(number) == 0
    }

    /// Whether the literal, or its negation, is one of these.
    fn is_among(&self, number: LiteralNumber, literals: &[Literal]) -> bool {
        for literal in literals {
            if let Some(other) = self.number_of(*literal) {
                if atom_of(other) == atom_of(number) {
                    return true;
                }
            }
        }
        false
    }
}
