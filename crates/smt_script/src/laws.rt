//! Laws of the definitions alone.
ghost use Rattle.smt_script.specs.Laws.{StartMade, StepMade, SettledMade, OnlyExitEnds, ExitIsCarriedOut, ModeIsKept, ModelNeedsSat, ValuesNeedSat, ProofNeedsUnsat, CoreNeedsUnsat, AssumptionsNeedUnsat, QuestionsOfActive, AskedIsTold, MinimizedIsWorth};

use idl_linear::linear_law;
use idl_term::{context_law, lowered_law};

/// What is active in a state came about by declarations, definitions and assertions: at the start, after each command, and
/// after each verdict.
pub fn state_law()
    ensures start { StartMade }
    ensures step { StepMade }
    ensures settled { SettledMade }
{}

/// The value of a minimized term is the difference of its objective's points, and its constant, on every schedule.
pub fn objective_law()
    ensures { MinimizedIsWorth }
{
    linear_law();
    context_law();
    lowered_law();
}

/// The script ends at the first `(exit)`, and at no other command that is carried out.
pub fn exit_law()
    ensures alone { OnlyExitEnds }
    ensures always { ExitIsCarriedOut }
{}

/// What a verdict was given on stays as long as its mode, and what is asked of a verdict is told in its mode alone.
pub fn mode_law()
    ensures kept { ModeIsKept }
    ensures model { ModelNeedsSat }
    ensures values { ValuesNeedSat }
    ensures proof { ProofNeedsUnsat }
    ensures core { CoreNeedsUnsat }
    ensures assumptions { AssumptionsNeedUnsat }
    ensures asking { QuestionsOfActive }
    ensures asked { AskedIsTold }
{}
