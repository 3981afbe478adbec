//! Laws of the lexicon: functions that do nothing, and tell their callers' proofs a fact.
ghost use Rattle.smt_lex.specs.Laws.{OneReading, ReadsBack, ReadsBefore, ReadsClosing};

/// At each place one thing can be read, so the relation says which.
pub fn one_reading()
    ensures { OneReading }
{}

/// A token that is written behind at most one space is read again, if what follows doesn't go on with it.
pub fn reads_back()
    ensures { ReadsBack }
{}

/// What is read in front of a closing parenthesis, and the parenthesis itself, is read the same whatever follows the
/// parenthesis.
pub fn reads_on()
    ensures before { ReadsBefore }
    ensures closing { ReadsClosing }
{}
