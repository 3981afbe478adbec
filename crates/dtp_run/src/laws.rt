//! Laws over what [`run`](crate::run) promises, where sources and sinks tell their bytes.
ghost use Rattle.dtp_run.specs.Laws.{LinesOfOneThread, VerdictsOfOneThread, CertifiedIsNotRefused, ConvertedIsNotRefused, AcceptedSaysNothingFalse, ShopIsNotRefused};

/// The verdicts are those of one thread: two runs on one script, with whatever numbers of workers and slices, that end without
/// a fault outside and without want of memory, have the same verdicts, the same minimum values and the same status, and
/// transcripts the same lines but for models, values, proofs and cores.
pub fn verdicts_of_one_thread()
    ensures lines { LinesOfOneThread }
    ensures verdicts { VerdictsOfOneThread }
{
    dtp_entry::one_transcript();
}

/// What a run of `certify` wrote with status 0 isn't refused by a run of `check` on the script and that certificate.
pub fn certified_is_not_refused()
    ensures { CertifiedIsNotRefused }
{
    dtp_check::certified_is_accepted();
    dtp_check::one_judgement();
}

/// What a run of `convert` wrote with status 0 isn't refused by a run of `check` on the source's script and that certificate.
pub fn converted_is_not_refused()
    ensures { ConvertedIsNotRefused }
{
    dtp_convert::converted_is_accepted();
    dtp_check::one_judgement();
}

/// Where a run of `check` ends with status 0, the entries behind the script in its source say what is so at the script's
/// questions, one for each and in order.
pub fn accepted_says_nothing_false()
    ensures { AcceptedSaysNothingFalse }
{
    dtp_check::nothing_false_is_accepted();
}

/// What runs of `jobshop` wrote of the same numbers, the script and its certificate, isn't refused by a run of `check` on both.
pub fn shop_is_not_refused()
    ensures { ShopIsNotRefused }
{
    shop_law::shop_is_accepted();
    dtp_check::one_judgement();
}
