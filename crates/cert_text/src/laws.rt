//! Laws of the format: functions that do nothing, and tell their callers' proofs a fact.
ghost use Rattle.smt_sexpr.specs.Printing.{IsWritable};
ghost use Rattle.cert_text.specs.Form.{end_sexpr};
ghost use Rattle.cert_text.specs.Laws.{HeaderIsWritable, EntryIsWritable, FileEntryIsWritable};
ghost use Rattle.cert_text.specs.Laws.{LineReadsBack, HeaderReadsBack, EntryReadsBack, FileEntryReadsBack};
ghost use Rattle.cert_text.specs.Laws.{OneHeader, OneEntry, OneLine, OneFileEntry, OneFileLine};
ghost use Rattle.cert_text.specs.Laws.{OwnText, OwnFits, OwnPlain};

/// The s-expressions of a certificate can be written: each leaf is a token.
pub fn entry_is_writable()
    ensures header { HeaderIsWritable }
    ensures entry { EntryIsWritable }
    ensures file_entry { FileEntryIsWritable }
    ensures end { IsWritable end_sexpr }
{}

/// A line of a certificate is read again as the s-expression that it was written from, whatever stands before it and
/// behind it, and what is behind its line feed is left.
pub fn reads_back_entry()
    ensures header { HeaderReadsBack }
    ensures entry { EntryReadsBack }
    ensures file_entry { FileEntryReadsBack }
    ensures end { LineReadsBack end_sexpr }
{
    smt_sexpr::reads_back();
}

/// No two versions have the same header; no two entries have the same s-expression, and no two have the same line.
pub fn one_entry()
    ensures header { OneHeader }
    ensures sexpr { OneEntry }
    ensures line { OneLine }
    ensures file_sexpr { OneFileEntry }
    ensures file_line { OneFileLine }
{
    smt_sexpr::one_value();
    smt_sexpr::reads_back();
}

/// An entry that keeps no lemmas has the text of what decides its check, and the numbers that are in it.
pub fn own_lemmas_alone()
    ensures text { OwnText }
    ensures fits { OwnFits }
    ensures plain { OwnPlain }
{}
