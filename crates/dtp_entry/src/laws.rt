//! Laws of the definitions alone.
ghost use Rattle.dtp_entry.specs.Laws.{RightIsSo, OneVerdict, OneTranscriptByEntries, OneTranscriptButGaps, OneTranscript};

/// What a right entry of a question says is so, whoever made it.
pub fn right_is_so()
    ensures { RightIsSo }
{
    idl_term::context_law();
    clause_form::clause_form_law();
    refute_tree::refutation_law();
    unsat_cores::core_law();
    best_values::unbounded_law();
    smt_script::objective_law();
    smt_script::state_law();
}

/// A script has one list of verdicts, of minimum values among them, and one status, in the transcript and in the certificate.
/// It has one transcript for the entries that decided its questions. All its transcripts have the same lines but for models,
/// values, proofs and cores; and where no command that is answered asks for these, it has one transcript at most.
pub fn one_transcript()
    ensures verdicts { OneVerdict }
    ensures entries { OneTranscriptByEntries }
    ensures lines { OneTranscriptButGaps }
    ensures transcript { OneTranscript }
{
    smt_sexpr::one_outcome();
    smt_script::mode_law();
}
