//! What the laws of the scripts of `bench` say of one of them.
ghost use Rattle.std.specs.Prelude.{◌++◌, ℕ, List};
ghost use Rattle.bench_law.specs.Laws.{EndsWell};
ghost use Rattle.cert_text.specs.declared.entry.Version.TheVariants.{One};
ghost use Rattle.dtp_bench.specs.Benches.{plan_of};
ghost use Rattle.dtp_check.specs.declared.judgement.Judgement.TheVariants.{Accepted};
ghost use Rattle.dtp_check.specs.Judged.{IsJudged};
ghost use Rattle.dtp_entry.specs.declared.report.Report.{Report};
ghost use Rattle.dtp_entry.specs.declared.report.Report.TheVariants.{Certificate};
ghost use Rattle.dtp_entry.specs.Transcripts.{Output, IsOutput, IsReport};
ghost use Rattle.dtp_gen.specs.Scripts.{script};

use crate::numbers::PlanNumbers;

/// The plan's script ends without an error, with one entry, and is accepted with its certificate behind it.
pub fn plan_law(plan: PlanNumbers)
    ensures ends { (report : Report) (out : Output) → IsOutput report (script (plan_of plan)) out → EndsWell out }
    ensures accepted { (certificate : List ℕ) (status : ℕ)
        → IsReport (Certificate One) (script (plan_of plan)) certificate status
        → IsJudged (script (plan_of plan) ++ certificate) Accepted }
{
    bench_law::script_has_no_error();
    bench_law::certificate_is_accepted();
}
