use cert_check::Flaw;
use cert_read::CertificateRefusal;
use smt_answer::Kind;

/// What is wrong with an entry.
#[derive(Clone, Copy, Debug, PartialEq, Eq)]
pub enum EntryFlaw {
    /// A sat entry at a minimize, or a best or an unbounded one at a check-sat.
    WrongKind,
    /// There are more or fewer values than names, or than time points.
    WrongCount,
    /// The value with this number, counted from 1, is not of its name's sort.
    WrongSort(usize),
    /// The assertion with this number, counted from 1, is false on the values.
    FalseAssertion(usize),
    /// The term has another value than the entry says.
    NotAttained,
    /// The value of the objective's difference of points is beyond the limit.
    OutOfRange,
    /// A point of the set is no point of the problem.
    NoSuchPoint,
    /// The set hasn't the objective's first point, or has its second.
    NotOfObjective,
    /// The clause with this number, counted from 0, has no literal that the set keeps.
    NotKept(usize),
    /// The lemmas are no refutation.
    Flawed(Flaw),
}

/// What a script with its certificate comes to. Commands and entries are counted from 1.
#[derive(Clone, Copy, Debug, PartialEq, Eq)]
pub enum Judgement {
    Accepted,
    /// A command can't be read, or is refused.
    Script(u64, Kind),
    /// What stands behind the script is no certificate.
    Certificate(CertificateRefusal),
    /// There is no entry for a question.
    Missing(usize),
    Entry(usize, EntryFlaw),
    /// There is no question for an entry.
    Surplus(usize),
}
