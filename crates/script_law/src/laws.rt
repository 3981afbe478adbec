//! Laws of the definitions alone.
ghost use Rattle.script_law.specs.Laws.{CertificateIsAccepted, OneQuestionIsDecided};

/// A script that asks once is carried out without an error, and one entry decides its question, in the transcript and in the
/// certificate.
pub fn one_question_is_decided()
    ensures { OneQuestionIsDecided }
{
    smt_sexpr::reads_back();
    smt_sexpr::one_outcome();
}

/// What is written of that script as its certificate is accepted behind it.
pub fn certificate_is_accepted()
    ensures { CertificateIsAccepted }
{
    smt_sexpr::reads_back();
    smt_sexpr::one_outcome();
    smt_script::exit_law();
    dtp_check::certified_is_accepted();
}
