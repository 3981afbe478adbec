use std::alloc::{AllocError, AllocFailed};

/// What is wrong with a step, with a kept lemma, or with a list of lemmas.
#[derive(Clone, Copy, Debug, PartialEq, Eq)]
pub enum FlawKind {
    /// A literal of a lemma's clause or of an `Either` step names a time point that the problem hasn't; or a kept lemma
    /// or one that it rests on has such a literal.
    NoSuchPoint,
    /// An `Input` or `Clash` step whose number is no clause's, or a `Lemma` step whose number is no earlier lemma's.
    NoSuchClause,
    /// A literal of a `Cycle` step isn't assumed.
    NotAssumed,
    /// A `Cycle` step whose literals are all assumed, and no negative cycle.
    NotACycle,
    /// A `Clash` step with a clause that has a literal whose negation isn't assumed.
    NotDenied,
    /// The steps end before the tree does.
    StepsMissing,
    /// The tree ends before the steps do.
    StepsLeftOver,
    /// A kept lemma whose numbers are no earlier entry's and no item's of it.
    NoSuchKeptLemma,
    /// A kept lemma that rests on a clause which isn't one of the problem.
    NotActive,
    /// All lemmas are refuted, and the last has a literal, or there is none.
    LastLemmaNotEmpty,
}

/// The first flaw, in the order of the lemmas, and of the steps in each: the numbers of the lemma and of the step, from
/// 0. A lemma's own literals come before its steps, with the step number 0, which is also that of a kept lemma's flaw.
/// Where steps are missing, the step number is their count. At `LastLemmaNotEmpty` the lemma number is the count of the
/// lemmas, and the step number is 0.
#[derive(Clone, Copy, Debug, PartialEq, Eq)]
pub struct Flaw {
    pub lemma: usize,
    pub step: usize,
    pub kind: FlawKind,
}

/// Why lemmas aren't accepted.
#[derive(Clone, Copy, Debug, PartialEq, Eq)]
pub enum CheckError {
    OutOfMemory,
    Refused(Flaw),
}

impl From<AllocError> for CheckError {
    ghost use Rattle.std.specs.Prelude.{◌≡◌};
    ghost use Rattle.cert_check.specs.declared.flaw.CheckError.TheVariants.{OutOfMemory};

    ghost from_gives = { λ _ e. e ≡ OutOfMemory };

    fn from(_failed: AllocError) -> Self {
        CheckError::OutOfMemory
    }
}
