//! Laws of the definitions alone.
ghost use Rattle.dtp_convert.specs.Laws.{ConvertedIsAccepted};

/// A script is accepted with what it and its certificate were converted to.
pub fn converted_is_accepted()
    ensures { ConvertedIsAccepted }
{
    smt_sexpr::one_outcome();
    smt_sexpr::reads_on();
    cert_text::one_entry();
    smt_script::exit_law();
    dtp_check::certified_is_accepted();
}
