//! Laws of the definitions alone.
ghost use Rattle.dtp_check.specs.Laws.{OneJudgement, NothingFalseIsAccepted, CertifiedIsAccepted};
ghost use Rattle.dtp_check.specs.Whole.{IsWhole};
ghost use Rattle.dtp_check.specs.WholeExamples.{ends_at_exit, ends_with_line, ends_in_comment};

/// A source comes to one judgement at most.
pub fn one_judgement()
    ensures { OneJudgement }
{
    smt_sexpr::one_outcome();
    cert_text::one_entry();
    cert_read::one_certificate();
}

/// Where a source is accepted, whoever made the certificate, nothing false is: there is one entry for each question, a
/// sat entry shows that some schedule satisfies the assertions there, and an unsat entry that none does; a best entry shows that
/// its value is the term's best one, and an unbounded entry that there are schedules and no best value.
pub fn nothing_false_is_accepted()
    ensures { NothingFalseIsAccepted }
{
    idl_term::context_law();
    clause_form::clause_form_law();
    kept_lemmas::entries_law();
    lemma_shelf::flaw_law();
    refute_tree::refutation_law();
    best_values::unbounded_law();
    unsat_cores::core_law();
    smt_script::state_law();
    smt_script::objective_law();
}

/// A script is accepted with the certificate, of either version, that was written of it without an error. The script is cut behind its
/// `(exit)`, where it has one, and doesn't end in a comment.
pub fn certified_is_accepted()
    ensures { CertifiedIsAccepted }
{
    smt_sexpr::one_outcome();
    smt_sexpr::reads_on();
    smt_script::exit_law();
    cert_check::flaw_law();
    lemma_shelf::flaw_law();
    kept_lemmas::entries_law();
    cert_text::own_lemmas_alone();
    cert_read::certificate_reads_back();
}

/// Worked examples of scripts behind which a certificate can be appended: one that ends at `(exit)`, one with a comment
/// that is ended, and none whose comment isn't.
pub fn whole_examples()
    ensures at_exit { IsWhole ends_at_exit }
    ensures with_line { IsWhole ends_with_line }
    ensures in_comment { ¬ IsWhole ends_in_comment }
{
    smt_sexpr::one_outcome();
    smt_sexpr::reads_back();
}
