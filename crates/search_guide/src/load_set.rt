//! A plan for operations on one machine that take more time than they have (`loads.rt`). A search over their order tries
//! many orders; this plan has it learn claims: of such a set of operations one ends later than such a time. A claim
//! follows from those of the sets with one operation less, each at the latest start of the operation that isn't in it:
//! whichever comes last would have to wait for one that ends later than that. The claim of all of them is that there is
//! no schedule.
//!
//! Only the claims that it rests on are learned, at times that the deadlines of the operations behind leave, those at
//! earlier times first. Of a set that has more work than time those operations are enough that start late, and without
//! some short ones, as long as they have too much work: so many sets come down to one. Still there are some 2^n of them
//! where n operations are a whole machine's and hardly any time is missing: some 350 to 500 for 10 operations, 2,000 for
//! 12, 6,000 for 13, 21,000 for 15, each of which takes 2 to 5 conflicts. There is a plan for at most 25,000, which a slice
//! carries through whatever its budget. Where more time is missing there are fewer.
//!
//! The bounds are new literals, up to one for each time of each operation. On their ladders stand those alone that the
//! claim in hand speaks of, and the claims on which it rests: with all of them there most of the time went up and down
//! ladders.
//!
//! There can also be a plan under a cube of one literal, as a question for less than a bound is.
use crate::assignment::{Assignment, Truth};
use crate::claims::{Claims, MOST_OPERATIONS, claims_of, has};
use crate::guide::Guide;
use crate::ladders::Ladders;
use crate::loads;
use crate::loads::{Operation, Overload};
use crate::numbers::{LiteralNumber, Numbers, negated};
use std::alloc::{AllocError, Global};
use stn_core::{BOUND_LIMIT, Literal, Problem};

/// What comes next of the plan for a claim.
#[derive(Clone, Copy)]
enum Turn {
    Decide(LiteralNumber),
    /// It is known.
    Known,
    /// It isn't learned: something that leads to it was forgotten.
    Failed,
}

/// The plan for one machine's operations.
pub struct LoadSet {
    origin: u32,
    operations: Vec<Operation>,
    claims: Claims,
    /// the literal under which such operations were looked for last
    assumed: Option<Literal>,
    /// the claim whose bounds these are, and those of the set without the operation that can start latest
    ready: Option<usize>,
    bounds: Vec<LiteralNumber>,
    without: Vec<LiteralNumber>,
    /// the bounds that came onto their ladders for it
    entered: Vec<LiteralNumber>,
    /// the first claim that isn't known, and the one for which literals are decided now
    next: usize,
    ahead: usize,
    /// whether some are decided for another one
    is_stale: bool,
    /// the claim that is tried again, since it didn't follow
    retried: Option<usize>,
}

impl Drop for LoadSet {
    fn drop(self) {
        let LoadSet {
            origin: _,
            operations,
            claims,
            assumed: _,
            ready: _,
            bounds,
            without,
            entered,
            next: _,
            ahead: _,
            is_stale: _,
            retried: _,
        } = self;
        drop(operations);
        drop(claims);
        drop(bounds);
        drop(without);
        drop(entered);
    }
}

impl LoadSet {
    pub fn none(alloc: Global) -> Self {
        LoadSet {
            origin: 0,
            operations: Vec::new(alloc),
            claims: Claims::none(alloc),
            assumed: None,
            ready: None,
            bounds: Vec::new(alloc),
            without: Vec::new(alloc),
            entered: Vec::new(alloc),
            next: 0,
            ahead: 0,
            is_stale: false,
            retried: None,
        }
    }

    /// The plan for such operations of the problem, if there are any, where this literal is assumed too. Their bounds get
    /// numbers.
    pub fn find(
        alloc: Global,
        problem: &Problem,
        assumed: Option<Literal>,
        numbers: &mut Numbers,
    ) -> Result<Self, AllocError> {
        let mut set = LoadSet::none(alloc);
        set.assumed = assumed;
        match loads::find(alloc, problem, assumed)? {
            Some(overload) if overload.operations.len() <= MOST_OPERATIONS => {
                set.begin(alloc, overload, numbers)?;
            }
            _ => {}
        }
        Ok(set)
    }

    /// The plan begins. There is none where the claims are too many.
    fn begin(
        &mut self,
        alloc: Global,
        overload: Overload,
        numbers: &mut Numbers,
    ) -> Result<(), AllocError> {
        let Overload { origin, operations } = overload;
        self.claims = claims_of(alloc, &operations)?;
        self.origin = origin;
        self.operations = operations;
        for claim in self.claims.as_slice() {
            self.number_bounds(claim.set, claim.time, numbers)?;
            self.number_bounds(claim.without_set, claim.without_time, numbers)?;
        }
        Ok(())
    }

    /// The bounds of a claim get numbers.
    fn number_bounds(&self, set: u32, time: i64, numbers: &mut Numbers) -> Result<(), AllocError> {
        for place in 0..self.operations.len() {
            if has(set, place) {
                if let Some(bound) = self.bound(place, time) {
                    numbers.insert(bound)?;
                }
            }
        }
        Ok(())
    }

    /// The numbers of a claim's bounds, behind others. A claim that isn't one to be learned has none, or some of them.
    fn push_bounds(
        &self,
        set: u32,
        time: i64,
        numbers: &Numbers,
        found: &mut Vec<LiteralNumber>,
    ) -> Result<(), AllocError> {
        for place in 0..self.operations.len() {
            if let (true, Some(bound)) = (has(set, place), self.bound(place, time)) {
                if let Some(number) = numbers.number(bound) {
                    found.push(number)?;
                }
            }
        }
        Ok(())
    }

    /// Of all bounds those stand on their ladders that belong to the claim for which literals are decided now, or to one
    /// on which it rests: each other one would be one more step of a ladder wherever a bound follows.
    fn make_ready(
        &mut self,
        alloc: Global,
        numbers: &Numbers,
        ladders: &mut Ladders,
    ) -> Result<(), AllocError> {
        if self.ready == Some(self.ahead) {
            return Ok(());
        }
        self.leave_ladders(numbers, ladders)?;
        let Some(claim) = self.claims.as_slice().get(self.ahead).copied() else {
            return Ok(());
        };
        let mut bounds = Vec::new(alloc);
        self.push_bounds(claim.set, claim.time, numbers, &mut bounds)?;
        let mut without = Vec::new(alloc);
        self.push_bounds(claim.without_set, claim.without_time, numbers, &mut without)?;
        self.enter_ladders(&bounds, numbers, ladders)?;
        self.enter_ladders(&without, numbers, ladders)?;
        let is_retried = self.retried == Some(self.ahead);
        self.enter_below(alloc, claim.set, is_retried, numbers, ladders)?;
        self.bounds = bounds;
        self.without = without;
        self.ready = Some(self.ahead);
        Ok(())
    }

    /// The same for the claims on which the set's claim rests, and those on which these rest where it is tried again.
    fn enter_below(
        &mut self,
        alloc: Global,
        set: u32,
        is_deep: bool,
        numbers: &Numbers,
        ladders: &mut Ladders,
    ) -> Result<(), AllocError> {
        let mut bounds = Vec::new(alloc);
        for place in 0..self.operations.len() {
            if !has(set, place) {
                continue;
            }
            let (smaller, time) = self.claims.below(set, place);
            self.push_bounds(smaller, time, numbers, &mut bounds)?;
            for other in 0..self.operations.len() {
                if is_deep && has(smaller, other) {
                    let (least, time) = self.claims.below(smaller, other);
                    self.push_bounds(least, time, numbers, &mut bounds)?;
                }
            }
        }
        self.enter_ladders(&bounds, numbers, ladders)
    }

    fn enter_ladders(
        &mut self,
        bounds: &[LiteralNumber],
        numbers: &Numbers,
        ladders: &mut Ladders,
    ) -> Result<(), AllocError> {
        for bound in bounds {
            let number = *bound & !1;
            if ladders.enter(numbers.atoms(), number)? {
                self.entered.push(number)?;
            }
        }
        Ok(())
    }

    fn leave_ladders(
        &mut self,
        numbers: &Numbers,
        ladders: &mut Ladders,
    ) -> Result<(), AllocError> {
        for number in &self.entered {
            ladders.leave(numbers.atoms(), *number)?;
        }
        self.entered.truncate(0);
        self.ready = None;
        Ok(())
    }

    pub fn is_under_way(&self) -> bool {
        self.next < self.claims.as_slice().len()
    }

    /// The bound that an operation ends later than the time. None where it can't.
    fn bound(&self, place: usize, time: i64) -> Option<Literal> {
        let operation = self.operations.get(place)?;
        if operation.end <= time {
            return None;
        }
        let start = time.saturating_sub(operation.duration).saturating_add(1);
        if start.unsigned_abs() > BOUND_LIMIT {
            return None;
        }
        Some(Literal {
            x: self.origin,
            y: operation.point,
            c: 0i64.saturating_sub(start),
        })
    }

    /// First each operation of the set is over by the time, and then one of them as late as can be.
    fn turn(&self, assignment: &Assignment) -> Turn {
        if first_that_is(Truth::True, &self.bounds, assignment).is_some() {
            return Turn::Known;
        }
        if let Some(number) = first_that_is(Truth::Open, &self.bounds, assignment) {
            return Turn::Decide(negated(number));
        }
        match first_that_is(Truth::Open, &self.without, assignment) {
            Some(number) => Turn::Decide(number),
            None => Turn::Failed,
        }
    }

    /// Whether the trail is to go back to the root: the claim is known, and the next one's turn comes, or something is
    /// decided that isn't of its plan.
    pub fn wants_root(&mut self, assignment: &Assignment) -> bool {
        if self.is_stale {
            return true;
        }
        if let Turn::Known = self.turn(assignment) {
            self.pass(true);
            return true;
        }
        false
    }

    /// The claim's turn is over. It isn't known where something was decided for another one.
    fn pass(&mut self, is_above_root: bool) {
        self.ahead = self.ahead.saturating_add(1);
        if !self.is_stale {
            self.next = self.ahead;
        }
        self.is_stale = is_above_root;
    }

    /// What the claim rests on is no conflict. It is tried again with more bounds on their ladders, and then passed by: a claim
    /// may be known by another one that says more, and whose bounds don't stand there.
    fn fail(&mut self, is_above_root: bool) {
        if self.is_stale || self.retried == Some(self.ahead) {
            self.pass(is_above_root);
            return;
        }
        self.retried = Some(self.ahead);
        self.ready = None;
        if is_above_root {
            self.ahead = self.ahead.saturating_add(1);
            self.is_stale = true;
        }
    }

    /// Nothing is decided.
    fn start_again(&mut self) {
        self.ahead = self.next;
        self.is_stale = false;
    }
}

/// The first of the literals that stands so.
fn first_that_is(
    truth: Truth,
    literals: &[LiteralNumber],
    assignment: &Assignment,
) -> Option<LiteralNumber> {
    for number in literals {
        if assignment.truth(*number) == truth {
            return Some(*number);
        }
    }
    None
}

impl Guide {
    /// The next literal to decide for operations that have too little time, if there are any.
    pub(crate) fn next_of_load_set(&mut self) -> Option<LiteralNumber> {
        if self.above_root == 0 {
            self.load_set.start_again();
        }
        for _claim in self.load_set.ahead..self.load_set.claims.as_slice().len() {
            let is_ready = self
                .load_set
                .make_ready(self.alloc, &self.numbers, &mut self.ladders)
                .is_ok();
            let turn = if is_ready {
                self.load_set.turn(&self.assignment)
            } else {
                Turn::Failed
            };
            match turn {
                Turn::Decide(number) => return Some(number),
                Turn::Known => self.load_set.pass(self.above_root > 0),
                Turn::Failed => self.load_set.fail(self.above_root > 0),
            }
        }
        None
    }

    /// Whether the literal is a bound of a plan that is over: nothing is to follow that it says.
    pub fn is_idle(&self, number: LiteralNumber) -> bool {
        !self.load_set.is_under_way() && self.ladders.is_apart(number)
    }

    /// Where operations have too little time under this cube of one literal, a plan for them is under way from now on, and
    /// where another literal was assumed for a plan, that one is over: whether other literals are idle than before. The
    /// one error is want of memory.
    pub fn plan_under(&mut self, problem: &Problem, cube: &[Literal]) -> Result<bool, AllocError> {
        let has_changed = self.drop_plan_unless(cube)?;
        let [literal] = cube else {
            return Ok(has_changed);
        };
        let is_looked_at = self.load_set.assumed == Some(*literal);
        if is_looked_at || self.has_plan() || !self.policy().new_literals {
            return Ok(has_changed);
        }
        let before = self.numbers.len();
        self.load_set = LoadSet::find(self.alloc, problem, Some(*literal), &mut self.numbers)?;
        for _bound in before..self.numbers.len() {
            self.push_atom()?;
            self.phases.push()?;
        }
        self.ladders.make_room(self.numbers.len())?;
        Ok(has_changed || self.has_plan())
    }

    /// A plan that another literal was assumed for than those of the cube is dropped: whether there was one.
    fn drop_plan_unless(&mut self, cube: &[Literal]) -> Result<bool, AllocError> {
        let Some(assumed) = self.load_set.assumed else {
            return Ok(false);
        };
        if cube.iter().any(|literal| *literal == assumed) {
            return Ok(false);
        }
        self.load_set
            .leave_ladders(&self.numbers, &mut self.ladders)?;
        let was_plan = !self.load_set.claims.as_slice().is_empty();
        self.load_set = LoadSet::none(self.alloc);
        Ok(was_plan)
    }
}
