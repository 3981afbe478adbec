//! Whether the cases of two Int terms are the same.
ghost use Rattle.std.specs.Prelude.{◌≡◌, ◌<◌, ◌+◌, ℕ, IsTrue, IfSome, length, max};
ghost use Rattle.idl_cases.specs.code.GuardBounds.{AreGuardsBelow, IsCaseBelow};
ghost use Rattle.idl_cases.specs.code.CasesLeft.{IsCompared, IsMixed};

use crate::cases::Cases;
use crate::choices::Choices;
use crate::listed::Case;
use crate::shape::{Chosen, Form};
use idl_linear::mixed;

/// How far the fingerprint of a term is.
#[derive(Clone, Copy)]
pub(crate) enum Mixing<'c> {
    /// It is this one.
    Whole(u64),
    /// It is that of these choices, where what is before them has this one.
    Part(u64, &'c Choices),
}

/// How far two terms are compared.
#[derive(Clone, Copy)]
pub(crate) enum Compared<'c> {
    /// To the end: whether they are the same.
    Whole(bool),
    /// They are the same where these two parts are.
    Part(&'c Choices, &'c Choices),
}

impl Case {
    /// A number that cases made of equal parts have in common, and others seldom. There is none where a guard isn't among the first
    /// `count` nodes.
    fn fingerprint(&self, count: usize) -> Option<u64>
        ensures { IfSome result (λ _. IsCaseBelow count self.now) }
    {
        let mut all = self.linear().fingerprint();
        let guards = self.guards();
        for guard in guards {
            if *guard as usize >= count {
                return None;
            }
            all = mixed(all, u64::from(*guard));
        }
        Some(all)
    }

    /// Whether the two are made of equal parts.
    fn is_same(&self, other: &Case) -> bool
        ensures { IsTrue result → self.now ≡ other.now }
    {
        self.guards() == other.guards() && self.linear().is_same(other.linear())
    }
}

/// A number that lists of equal cases have in common, and others seldom. There is none where a guard isn't among the first `count` nodes.
fn listed_fingerprint(cases: &[Case], count: usize) -> Option<u64>
    ensures { IfSome result (λ _. AreGuardsBelow count cases.now) }
{
    let mut all = 0;
    for case in cases {
        let more = case.fingerprint(count)?;
        all = mixed(all, more);
    }
    Some(all)
}

/// Whether the two are lists of equal cases.
fn is_same_list(cases: &[Case], others: &[Case]) -> bool
    ensures { IsTrue result → cases.now ≡ others.now }
{
    if cases.len() != others.len() {
        return false;
    }
    for (k, case) in cases.iter().enumerate() {
        if !case.is_same(&others[k]) {
            return false;
        }
    }
    true
}

impl Cases {
    /// A number that terms made of equal parts have in common, and others seldom. There is none where a guard isn't among the first
    /// `count` nodes.
    #[cycle(fingerprints)]
    pub fn fingerprint(&self, count: usize) -> Option<u64>
        ensures { IfSome result (λ _. AreGuardsBelow count self.now) }
    {
        match self.mix(0) {
            Mixing::Whole(all) => Some(all),
            Mixing::Part(all, choices) => choices.fingerprint(all, count),
        }
    }

    /// Of a term's number what its linear terms add.
    fn mix(&self, all: u64) -> Mixing<'_>
        ensures { (count : ℕ) → IsMixed (length self.now + 1) (AreGuardsBelow count self.now) count result }
    {
        match self.chosen() {
            Chosen::Plain(linear) => Mixing::Whole(mixed(all, linear.fingerprint())),
            Chosen::Choices(choices) => Mixing::Part(all, choices),
            Chosen::Moved(by, choices) => Mixing::Part(mixed(all, by.fingerprint()), choices),
        }
    }

    /// Whether the two are made of equal parts.
    #[cycle(sameness)]
    pub fn is_same(&self, other: &Cases) -> bool
        ensures { IsTrue result → self.now ≡ other.now }
    {
        match self.compare(other) {
            Compared::Whole(is_same) => is_same,
            Compared::Part(choices, beside) => choices.is_same(beside),
        }
    }

    /// Their linear terms are compared.
    fn compare<'c>(&'c self, other: &'c Cases) -> Compared<'c>
        ensures { IsCompared (length self.now + 1) (self.now ≡ other.now) result }
    {
        match self.chosen() {
            Chosen::Plain(linear) => match other.chosen() {
                Chosen::Plain(beside) => Compared::Whole(linear.is_same(beside)),
                _ => Compared::Whole(false),
            },
            Chosen::Choices(choices) => match other.chosen() {
                Chosen::Choices(beside) => Compared::Part(choices, beside),
                _ => Compared::Whole(false),
            },
            Chosen::Moved(by, choices) => match other.chosen() {
                Chosen::Moved(by_beside, beside) => {
                    if by.is_same(by_beside) {
                        Compared::Part(choices, beside)
                    } else {
                        Compared::Whole(false)
                    }
                }
                _ => Compared::Whole(false),
            },
        }
    }
}

impl Choices {
    /// A number that choices made of equal parts have in common, and others seldom, where what is before them has the number `all`. There is
    /// none where a guard isn't among the first `count` nodes. Of two parts the one with fewer cases is gone into by a call, and the
    /// other one by a step of the loop: so the calls in one another are no more than the logarithm of the number of cases.
    #[cycle(fingerprints)]
    fn fingerprint(&self, all: u64, count: usize) -> Option<u64>
        ensures { IfSome result (λ _. AreGuardsBelow count self.now) }
    {
        let mut choices = self;
        let mut so_far = all;
        loop {
            let step = choices.mix(so_far, count)?;
            match step {
                Mixing::Whole(all) => return Some(all),
                Mixing::Part(all, part) => {
                    so_far = all;
                    choices = part;
                }
            }
        }
    }

    /// A step towards the number. Those of a sum's parts have fewer cases than the sum.
    #[cycle(fingerprints)]
    fn mix(&self, all: u64, count: usize) -> Option<Mixing<'_>>
        ensures { IfSome result (IsMixed (length self.now) (AreGuardsBelow count self.now) count) }
    {
        let (form, is_negated) = self.form();
        let all = mixed(all, u64::from(is_negated));
        match form {
            Form::Branched {
                condition,
                denial,
                yes,
                no,
            } => {
                if condition as usize >= count || denial as usize >= count {
                    return None;
                }
                let all = mixed(mixed(all, u64::from(condition)), u64::from(denial));
                if yes.len() < no.len() {
                    let of_yes = yes.fingerprint(count)?;
                    Some(no.mix(mixed(all, of_yes)))
                } else {
                    let of_no = no.fingerprint(count)?;
                    Some(yes.mix(mixed(all, of_no)))
                }
            }
            Form::Sum { first, second } => {
                if first.len() < second.len() {
                    let behind_first = first.fingerprint(mixed(all, 1), count)?;
                    Some(Mixing::Part(behind_first, second))
                } else {
                    let behind_second = second.fingerprint(mixed(all, 2), count)?;
                    Some(Mixing::Part(behind_second, first))
                }
            }
            Form::Listed(cases) => {
                let listed = listed_fingerprint(cases, count)?;
                Some(Mixing::Whole(mixed(all, listed)))
            }
        }
    }

    /// Whether the two are made of equal parts. Of two parts the one with fewer cases is gone into by a call, and the other one by a step
    /// of the loop.
    #[cycle(sameness)]
    fn is_same(&self, other: &Choices) -> bool
        ensures { IsTrue result → self.now ≡ other.now }
    {
        let mut choices = self;
        let mut beside = other;
        loop {
            let step = choices.compare(beside);
            match step {
                Compared::Whole(is_same) => return is_same,
                Compared::Part(part, part_beside) => {
                    choices = part;
                    beside = part_beside;
                }
            }
        }
    }

    /// A step of the comparison.
    #[cycle(sameness)]
    fn compare<'c>(&'c self, other: &'c Choices) -> Compared<'c>
        ensures { IsCompared (length self.now) (self.now ≡ other.now) result }
    {
        let (form, is_negated) = self.form();
        let (other_form, is_other_negated) = other.form();
        if is_negated != is_other_negated {
            return Compared::Whole(false);
        }
        match form {
            Form::Branched {
                condition,
                denial,
                yes,
                no,
            } => match other_form {
                Form::Branched {
                    condition: other_condition,
                    denial: other_denial,
                    yes: other_yes,
                    no: other_no,
                } => {
                    if condition != other_condition || denial != other_denial {
                        return Compared::Whole(false);
                    }
                    compare_branches(yes, no, other_yes, other_no)
                }
                _ => Compared::Whole(false),
            },
            Form::Sum { first, second } => match other_form {
                Form::Sum {
                    first: other_first,
                    second: other_second,
                } => compare_summands(first, second, other_first, other_second),
                _ => Compared::Whole(false),
            },
            Form::Listed(cases) => match other_form {
                Form::Listed(others) => Compared::Whole(is_same_list(cases, others)),
                _ => Compared::Whole(false),
            },
        }
    }
}

/// The step into the branches of two `ite`.
#[cycle(sameness)]
fn compare_branches<'c>(
    yes: &'c Cases,
    no: &'c Cases,
    other_yes: &'c Cases,
    other_no: &'c Cases,
) -> Compared<'c>
    requires yes { 0 < length yes.now }
    requires no { 0 < length no.now }
    ensures { IsCompared (length yes.now + length no.now) ((yes.now ≡ other_yes.now) × (no.now ≡ other_no.now)) result }
{
    if yes.len() < no.len() {
        if yes.is_same(other_yes) {
            no.compare(other_no)
        } else {
            Compared::Whole(false)
        }
    } else if no.is_same(other_no) {
        yes.compare(other_yes)
    } else {
        Compared::Whole(false)
    }
}

/// The step into the parts of two sums.
#[cycle(sameness)]
fn compare_summands<'c>(
    first: &'c Choices,
    second: &'c Choices,
    other_first: &'c Choices,
    other_second: &'c Choices,
) -> Compared<'c>
    ensures { IsCompared (1 + max (length first.now) (length second.now))
        ((first.now ≡ other_first.now) × (second.now ≡ other_second.now)) result }
{
    if first.len() < second.len() {
        if first.is_same(other_first) {
            Compared::Part(second, other_second)
        } else {
            Compared::Whole(false)
        }
    } else if second.is_same(other_second) {
        Compared::Part(first, other_first)
    } else {
        Compared::Whole(false)
    }
}
