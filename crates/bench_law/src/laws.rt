//! Laws of the definitions alone.
ghost use Rattle.bench_law.specs.Laws.{CertificateIsAccepted, NamesAreOperations, ScriptHasNoError};

/// The script of each plan that `bench` takes is carried out without an error, and has one entry for its one
/// check-sat, in the transcript and in the certificate.
pub fn script_has_no_error()
    ensures { ScriptHasNoError }
{
    script_law::one_question_is_decided();
}

/// What is written of that script as its certificate is accepted behind it.
pub fn certificate_is_accepted()
    ensures { CertificateIsAccepted }
{
    script_law::certificate_is_accepted();
}

/// So many names are counted in that script as there are operations.
pub fn names_are_operations()
    ensures { NamesAreOperations }
{
    smt_sexpr::reads_back();
    smt_sexpr::one_outcome();
}
