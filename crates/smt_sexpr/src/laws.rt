//! Laws of the grammar alone.
ghost use Rattle.smt_sexpr.specs.Laws.{OneValue, OneOutcome, OneMeaning, MeaningStays, MeaningIsWritable, ReadIsWritable};
ghost use Rattle.smt_sexpr.specs.Laws.{SexprReadsBack, ListReadsOn, ListIsWithin};

/// At each place the bytes spell one s-expression at most.
pub fn one_value()
    ensures { OneValue }
{
    smt_lex::one_reading();
}

/// At each place there is one outcome at most: an s-expression, the end or one refusal.
pub fn one_outcome()
    ensures { OneOutcome }
{
    smt_lex::one_reading();
}

/// An id stands for one s-expression at most.
pub fn one_meaning()
    ensures { OneMeaning }
{}

/// What an id stands for stays as the table grows.
pub fn meaning_stays()
    ensures { MeaningStays }
{}

/// What an id stands for can be written.
pub fn meaning_is_writable()
    ensures { MeaningIsWritable }
{}

/// What is read can be written.
pub fn read_is_writable()
    ensures { ReadIsWritable }
{}

/// What is written is read again, whatever follows a list, and leaves what follows.
pub fn reads_back()
    ensures { SexprReadsBack }
{
    smt_lex::reads_back();
}

/// A list is read the same whatever follows it, and it doesn't go beyond the text.
pub fn reads_on()
    ensures list { ListReadsOn }
    ensures within { ListIsWithin }
{
    smt_lex::reads_on();
}
