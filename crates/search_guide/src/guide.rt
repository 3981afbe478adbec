use crate::activities::Activities;
use crate::assignment::{Assignment, Truth};
use crate::clauses::{Clauses, Source};
use crate::closing::Closing;
use crate::distances_worth::DistancesWorth;
use crate::forgetting::Forgetting;
use crate::hall_set::HallSet;
use crate::ladders::Ladders;
use crate::load_set::LoadSet;
use crate::numbers::{LiteralNumber, Numbers, VAST, narrow, negated};
use crate::patience::Patience;
use crate::phases::{Phases, holds_on};
use crate::policy::Policy;
use crate::probing::Probing;
use crate::restarts::Restarts;
use crate::vivification::Vivification;
use crate::watches::{Proposal, Watches};
use std::alloc::{AllocError, Global};
use stn_core::{Literal, Problem, Value};

/// Another's lemma of more literals isn't watched: the longer, the more seldom it says something.
const MOST_SHARED: usize = 12;

/// So many conflicts have targets: what ends sooner mostly has a schedule.
const TARGET_CONFLICTS: u64 = 1_000;

/// The hints of a search. It is told what happens on the trail (`set`, `unset`), what is learned
/// (`add_lemma`) and what took part in conflicts (`bump`, `bump_clause`, `decay`, `after_conflict`), and
/// answers what to look at. What it was told wrongly makes its hints worse, and nothing else.
pub struct Guide {
    pub(crate) alloc: Global,
    policy: Policy,
    pub(crate) numbers: Numbers,
    pub(crate) clauses: Clauses,
    pub(crate) assignment: Assignment,
    pub(crate) ladders: Ladders,
    pub(crate) watches: Watches,
    pub(crate) activities: Activities,
    pub(crate) phases: Phases,
    restarts: Restarts,
    pub(crate) forgetting: Forgetting,
    pub(crate) vivification: Vivification,
    pub(crate) distances_worth: DistancesWorth,
    /// the clause of the problem from which the next look for a model goes on
    pointer: usize,
    patience: Patience,
    /// how many literals stand on the trail, and how many of them above the root
    set: usize,
    pub(crate) above_root: usize,
    pub(crate) probing: Probing,
    pub(crate) hall_set: HallSet,
    pub(crate) load_set: LoadSet,
}

impl Drop for Guide {
    fn drop(self) {
        let Guide {
            alloc: _,
            policy,
            numbers,
            clauses,
            assignment,
            ladders,
            watches,
            activities,
            phases,
            restarts,
            forgetting,
            vivification,
            distances_worth,
            pointer: _,
            patience,
            set: _,
            above_root: _,
            probing,
            hall_set,
            load_set,
        } = self;
        drop(policy);
        drop(numbers);
        drop(clauses);
        drop(assignment);
        drop(ladders);
        drop(watches);
        drop(activities);
        drop(phases);
        drop(restarts);
        drop(forgetting);
        drop(vivification);
        drop(distances_worth);
        drop(patience);
        drop(probing);
        drop(hall_set);
        drop(load_set);
    }
}

/// Numbers the literals, and puts the problem's clauses into the table.
fn read(alloc: Global, problem: &Problem) -> Result<(Numbers, Clauses), AllocError> {
    let mut numbers = Numbers::new(alloc);
    let mut clauses = Clauses::new(alloc);
    for clause in problem.clauses.as_slice() {
        clauses.begin_clause()?;
        for literal in clause.as_slice() {
            clauses.push(numbers.insert(*literal)?)?;
        }
        clauses.end_clause()?;
    }
    clauses.end_inputs();
    Ok((numbers, clauses))
}

impl Guide {
    /// The hints at the start of a search: no literal is on the trail, and there is no lemma.
    pub fn new(alloc: Global, problem: &Problem) -> Result<Self, AllocError> {
        Guide::with_policy(alloc, problem, Policy::default())
    }

    /// The same for a search that leaves out what the policy says.
    pub fn with_policy(
        alloc: Global,
        problem: &Problem,
        policy: Policy,
    ) -> Result<Self, AllocError> {
        let (mut numbers, clauses) = read(alloc, problem)?;
        let hall_set = if policy.new_literals {
            HallSet::find(alloc, problem, &mut numbers)?
        } else {
            HallSet::none(alloc)
        };
        let mut ladders = Ladders::start(alloc, numbers.atoms())?;
        let load_set = if policy.new_literals && !hall_set.is_under_way() {
            LoadSet::find(alloc, problem, None, &mut numbers)?
        } else {
            LoadSet::none(alloc)
        };
        ladders.make_room(numbers.len())?;
        let phases = Phases::start(alloc, problem.points, numbers.atoms(), policy.pure_apart)?;
        let restarts = Restarts::new(numbers.len());
        let mut guide = Guide {
            alloc,
            policy,
            numbers,
            clauses,
            assignment: Assignment::new(alloc),
            ladders,
            watches: Watches::new(alloc),
            activities: Activities::new(alloc),
            phases,
            restarts,
            forgetting: Forgetting::new(alloc),
            vivification: Vivification::new(),
            distances_worth: DistancesWorth::new(),
            pointer: 0,
            patience: Patience::new(),
            set: 0,
            above_root: 0,
            probing: Probing::new(alloc, problem.points, policy.new_literals)?,
            hall_set,
            load_set,
        };
        for _atom in 0..guide.numbers.len() {
            guide.push_atom()?;
        }
        guide.start_clauses()?;
        Ok(guide)
    }

    /// An atom that was never on the trail takes the side that holds on these values of the first time points, as those
    /// of an earlier schedule. Atoms of other points decide as before.
    pub fn follow(&mut self, values: &[Value]) {
        self.phases.follow(self.numbers.atoms(), values);
    }

    /// What the search leaves out.
    pub fn policy(&self) -> Policy {
        self.policy
    }

    /// Room for one more atom in the tables that begin empty.
    pub(crate) fn push_atom(&mut self) -> Result<(), AllocError> {
        self.assignment.push()?;
        self.watches.push()?;
        self.activities.push()?;
        self.forgetting.push_level()
    }

    /// First activities, and watches.
    fn start_clauses(&mut self) -> Result<(), AllocError> {
        for clause in 0..self.clauses.inputs() {
            let clause = narrow(clause);
            let literals = self.clauses.literals(clause);
            for literal in literals {
                self.activities.count_clause(*literal, literals.len());
            }
            self.watches.attach(&mut self.clauses, clause, 0, 1)?;
        }
        self.activities.order();
        Ok(())
    }

    /// The literal's number, a new one where it wasn't met before. The one error is want of memory.
    pub fn add_literal(&mut self, literal: Literal) -> Result<LiteralNumber, AllocError> {
        let before = self.numbers.len();
        let number = self.numbers.insert(literal)?;
        if self.numbers.len() > before {
            self.push_atom()?;
            self.phases.push()?;
            self.ladders.make_room(self.numbers.len())?;
            self.ladders.enter(self.numbers.atoms(), number & !1)?;
        }
        Ok(number)
    }

    /// The next lemma's clause. It is watched at the two places that leave the trail last. The one error is
    /// want of memory.
    pub fn add_lemma(&mut self, clause: &[Literal]) -> Result<(), AllocError> {
        let next = self.clauses.lemmas();
        self.enter_lemma(next, clause)
    }

    /// The clause of another's lemma with this number, if it isn't known yet. It is watched where it is short.
    /// The one error is want of memory.
    pub fn tell_lemma(&mut self, lemma: usize, clause: &[Literal]) -> Result<(), AllocError> {
        if !self.clauses.is_untold(lemma) {
            return Ok(());
        }
        if clause.len() > MOST_SHARED {
            self.clauses.pass_by(lemma);
            return Ok(());
        }
        self.enter_lemma(lemma, clause)
    }

    /// The clause of the lemma with this number, into the table and the watches.
    fn enter_lemma(&mut self, lemma: usize, clause: &[Literal]) -> Result<(), AllocError> {
        self.watches.end();
        self.clauses.begin_clause()?;
        for literal in clause {
            let number = self.add_literal(*literal)?;
            self.clauses.push(number)?;
        }
        self.clauses.number_next(lemma)?;
        let index = self.clauses.end_clause()?;
        let literals = self.clauses.literals(index);
        self.forgetting.push(literals, &self.assignment)?;
        let (first, second) = self.assignment.last_two(literals);
        self.watches.attach(&mut self.clauses, index, first, second)
    }

    /// The literal's number, if it was met before.
    pub fn number_of(&self, literal: Literal) -> Option<LiteralNumber> {
        self.numbers.number(literal)
    }

    pub fn literal(&self, number: LiteralNumber) -> Option<Literal> {
        self.numbers.literal(number)
    }

    pub fn negated(number: LiteralNumber) -> LiteralNumber {
        negated(number)
    }

    /// How many numbers of literals there are. It is even.
    pub fn literals(&self) -> usize {
        self.numbers.len().saturating_mul(2)
    }

    /// Whether there are so many literals that a search mostly ends in a few descents, or not at all.
    pub fn is_vast(&self) -> bool {
        self.numbers.len() > VAST
    }

    /// The numbers of the clause's literals, in their order. There are none for a lemma that was forgotten.
    pub fn numbers_of(&self, source: Source) -> &[LiteralNumber] {
        self.clauses.literals_of(source)
    }

    /// The number of the clause's literal at a place. There is none beyond the clause, and none for a lemma
    /// that was forgotten.
    pub fn number_at(&self, source: Source, place: usize) -> Option<LiteralNumber> {
        self.clauses.literals_of(source).get(place).copied()
    }

    /// Whether the literal was of the problem, and one of its points is in no other atom of it.
    pub fn is_pure(&self, number: LiteralNumber) -> bool {
        self.phases.is_pure(number)
    }

    /// The literal stands on the trail now.
    pub fn set(&mut self, number: LiteralNumber, place: usize, level: usize) {
        self.assignment.set(number, place, level);
        self.watches.touch(number);
        self.set = self.set.saturating_add(1);
        if level > 0 {
            self.above_root = self.above_root.saturating_add(1);
        }
    }

    /// Whether all literals, or their negations, stand on the trail.
    pub fn is_full(&self) -> bool {
        self.set >= self.numbers.len()
    }

    /// The literal leaves the trail.
    pub fn unset(&mut self, number: LiteralNumber) {
        self.set = self.set.saturating_sub(1);
        if self.assignment.level(number) > 0 {
            self.above_root = self.above_root.saturating_sub(1);
        }
        self.assignment.unset(number);
        if self.policy.saved_phases && !self.is_planned() {
            self.phases.save(number);
        }
        self.activities.reopen(number);
    }

    pub(crate) fn truth(&self, number: LiteralNumber) -> Truth {
        self.assignment.truth(number)
    }

    /// Where the literal stands on the trail.
    pub fn place(&self, number: LiteralNumber) -> Option<usize> {
        match self.assignment.truth(number) {
            Truth::True => Some(self.assignment.place(number)),
            Truth::False | Truth::Open => None,
        }
    }

    /// The level at which the literal stands on the trail.
    pub fn level(&self, number: LiteralNumber) -> Option<usize> {
        match self.assignment.truth(number) {
            Truth::True => Some(self.assignment.level(number)),
            Truth::False | Truth::Open => None,
        }
    }

    /// From here on `next` answers what follows from this literal of the trail.
    pub fn begin(&mut self, number: LiteralNumber) {
        let weaker = if self.policy.ladders {
            self.ladders.weaker(self.numbers.atoms(), number)
        } else {
            None
        };
        self.watches.begin(number, weaker);
    }

    /// What follows next. After a unit or a conflict the next call goes on behind it. The one error is want
    /// of memory.
    pub fn next(&mut self) -> Result<Proposal, AllocError> {
        self.watches
            .next(&mut self.clauses, &self.ladders, &self.assignment)
    }

    /// Whether the literals that are decided now are those of a plan, or of a lemma that is looked at.
    fn is_planned(&self) -> bool {
        self.probing.is_under_way() || self.vivification.is_under_way() || self.has_plan()
    }

    /// Whether a plan is under way that a slice is to carry through, since a division of its cube would spoil it.
    pub fn has_plan(&self) -> bool {
        self.hall_set.is_under_way() || self.load_set.is_under_way()
    }

    /// The open literal to decide, or nothing where all are on the trail. The values are the net's schedule.
    pub fn choose(&mut self, values: &[Value]) -> Option<LiteralNumber> {
        if let Some(number) = self.next_of_hall_set() {
            return Some(number);
        }
        if let Some(number) = self.next_of_load_set() {
            return Some(number);
        }
        if let Some(number) = self.probe() {
            return Some(number);
        }
        if self.policy.saved_phases {
            self.phases.note_sound(self.set);
        }
        for _turn in 0..self.literals() {
            let number = self.activities.top()?.wrapping_mul(2);
            if self.assignment.truth(number) == Truth::Open && !self.is_idle(number) {
                let atom = self.numbers.literal(number)?;
                let side = self.phases.side(number, atom, values);
                return Some(if side { number } else { negated(number) });
            }
            self.activities.pop();
        }
        None
    }

    /// Whether the literal's atom is more active than each open one, so that it would be decided first.
    pub fn outranks(&mut self, number: LiteralNumber) -> bool {
        if self.has_plan() {
            return false;
        }
        for _turn in 0..self.literals() {
            let Some(atom) = self.activities.top() else {
                return true;
            };
            if self.assignment.truth(atom.wrapping_mul(2)) == Truth::Open {
                return self.activities.is_before(number, atom);
            }
            self.activities.pop();
        }
        true
    }

    fn seems_true(&self, clause: u32, values: &[Value]) -> bool {
        for literal in self.clauses.literals(clause) {
            if self.side(*literal, values) {
                return true;
            }
        }
        false
    }

    /// Whether each clause of the problem has a literal whose `side` is true. It looks from where it found
    /// none the last time, so that a call that answers no is mostly short. Where it is asked again after a
    /// yes, it passes some calls by, and answers no.
    pub fn seems_model(&mut self, values: &[Value]) -> bool {
        if !self.patience.is_over() {
            return false;
        }
        let inputs = self.clauses.inputs();
        for _turn in 0..inputs {
            if !self.seems_true(narrow(self.pointer), values) {
                return false;
            }
            let next = self.pointer.wrapping_add(1);
            self.pointer = if next < inputs { next } else { 0 };
        }
        self.patience.said_yes();
        true
    }

    /// Whether the literal is true: on the trail, or else, if it is pure, by its phase, or else on the
    /// values.
    pub fn side(&self, number: LiteralNumber, values: &[Value]) -> bool {
        match self.assignment.truth(number) {
            Truth::True => true,
            Truth::False => false,
            Truth::Open if self.phases.is_pure(number) => self.phases.pure_side(number),
            Truth::Open => match self.numbers.literal(number) {
                Some(literal) => holds_on(literal, values),
                None => false,
            },
        }
    }

    /// The literal took part in a conflict.
    pub fn bump(&mut self, number: LiteralNumber) {
        if !self.is_planned() {
            self.activities.bump(number);
        }
    }

    /// The clause took part in a conflict.
    pub fn bump_clause(&mut self, source: Source) {
        let Some(clause) = self.clauses.index(source) else {
            return;
        };
        if let Some(place) = self.clauses.place(clause) {
            let literals = self.clauses.literals(clause);
            self.forgetting.bump(place, literals, &self.assignment);
        }
    }

    /// What took part in earlier conflicts counts less from now on.
    pub fn decay(&mut self) {
        if self.is_planned() {
            return;
        }
        let is_clausal = self.is_clausal();
        self.activities.decay(is_clausal);
        self.forgetting.decay();
    }

    /// The level to jump back to from a conflict, whose learned clause has these literals, all denied: the
    /// second greatest of their levels, or 0 for one literal.
    pub fn after_conflict(&mut self, clause: &[LiteralNumber]) -> usize {
        if !self.is_planned() {
            self.forgetting.count_conflict();
            self.phases.take_targets(&self.assignment);
            if self.forgetting.conflicts() >= TARGET_CONFLICTS {
                self.phases.end_targets();
            }
        }
        let mut greatest = 0;
        let mut second = 0;
        for number in clause {
            let level = self.assignment.level(*number);
            if level >= greatest {
                second = greatest;
                greatest = level;
            } else if level > second {
                second = level;
            }
        }
        if !self.is_planned() {
            self.restarts.count_conflict(greatest);
        }
        second
    }

    /// Whether it is time to go back; if so, the next wait begins.
    pub fn wants_restart(&mut self) -> bool {
        if self.hall_set.is_under_way() {
            return self.hall_set.wants_root(&self.assignment);
        }
        if self.load_set.is_under_way() {
            return self.load_set.wants_root(&self.assignment);
        }
        let is_clausal = self.is_clausal();
        self.policy.restarts && self.restarts.is_due(is_clausal)
    }

    /// Takes lemmas out of the watches where it is time, and answers how many. Their numbers stay theirs;
    /// `number_at` answers nothing for them from then on. The one error is want of memory.
    pub fn forget(&mut self) -> Result<usize, AllocError> {
        if !self.policy.forgetting || !self.forgetting.is_due() {
            return Ok(0);
        }
        let is_clausal = self.is_clausal();
        let (kept, dropped) = self
            .forgetting
            .select(self.alloc, &self.clauses, &self.assignment, is_clausal)?;
        self.watches.begin_closing(&self.clauses);
        self.clauses.keep_lemmas(&kept);
        self.watches.end_closing(&self.clauses);
        Ok(dropped)
    }

    /// How many numbers of lemmas there are: the next lemma gets this one.
    pub fn lemmas(&self) -> usize {
        self.clauses.lemmas()
    }

    /// The lemmas from one number on have numbers from another on, no smaller one, since lemmas of others
    /// stand before them now. There are so many numbers in all, and of those that are new no lemma is known.
    /// The one error is want of memory.
    pub fn renumber(&mut self, from: usize, to: usize, count: usize) -> Result<(), AllocError> {
        self.watches.end();
        self.clauses.renumber(from, to, count)
    }

    /// For each lemma of the table whether it stays in it.
    fn staying(&self, first: usize, kept: &[bool]) -> Result<Vec<bool>, AllocError> {
        let count = self.clauses.entries();
        let mut staying = Vec::with_capacity(self.alloc, count)?;
        for place in 0..count {
            let clause = self.clauses.entry(place);
            let is_kept = match self.clauses.source(clause) {
                Source::Lemma(lemma) if lemma >= first => kept.get(lemma - first).copied(),
                _ => None,
            };
            let has_literals = !self.clauses.literals(clause).is_empty();
            staying.push(has_literals && is_kept != Some(false))?;
        }
        Ok(staying)
    }

    /// Of the lemmas from this number on those that aren't kept are gone, and the numbers of the others close
    /// up. Lemmas that were forgotten leave the table. The one error is want of memory.
    pub fn close_up(&mut self, first: usize, kept: &[bool]) -> Result<(), AllocError> {
        let staying = self.staying(first, kept)?;
        let inputs = self.clauses.inputs();
        let closing = Closing::new(self.alloc, inputs, &staying)?;
        self.watches.close_up(&self.clauses, &closing);
        self.clauses.close_up(first, kept, &closing);
        self.forgetting.close_up(inputs, &closing);
        Ok(())
    }
}
