//! Laws of the definitions alone.
ghost use Rattle.shop_law.specs.Laws.{BestIsLeastMakespan, NoLessThanMakespan, ObjectiveIsBounded, SchedulesArePlans, SchedulesAreStarts, ScriptIsRead, ScriptIsSatisfiable, ScriptMeansPlans, ShopIsAccepted, ShopIsAnswered, StateOfScript};

/// All assertions of the script have the value true exactly where the starts are a feasible plan that has ended at `m`.
pub fn schedules_are_plans()
    ensures { SchedulesArePlans }
{}

/// That `m` is no less than any end says that it is no less than the makespan.
pub fn no_less_than_makespan()
    ensures { NoLessThanMakespan }
{}

/// The values of the script's names in the order of declaration are `m` and the starts, job after job.
pub fn schedules_are_starts()
    ensures { SchedulesAreStarts }
{}

/// The script's bytes are read as its commands.
pub fn script_is_read()
    ensures { ScriptIsRead }
{
    smt_sexpr::reads_back();
}

/// No command before the objective is refused, and behind them `m` and the starts are declared and the terms asserted.
pub fn state_of_script()
    ensures { StateOfScript }
{}

/// There the schedules that make all assertions true are the feasible plans that have ended at `m`.
pub fn script_means_plans()
    ensures { ScriptMeansPlans }
{}

/// Where `m` is best for the objective, each schedule with that value is a feasible plan whose makespan is `m`, and no
/// feasible plan has a smaller one.
pub fn best_is_least_makespan()
    ensures { BestIsLeastMakespan }
{}

/// Some schedule makes all assertions true: the operations one after the other.
pub fn script_is_satisfiable()
    ensures { ScriptIsSatisfiable }
{}

/// No such schedule gives the objective a value below 0, so that it has a best one.
pub fn objective_is_bounded()
    ensures { ObjectiveIsBounded }
{}

/// The script of each job shop is carried out without an error, and its one entry, in the transcript and in the certificate, is
/// the least makespan, with a plan that has it.
pub fn shop_is_answered()
    ensures { ShopIsAnswered }
{
    script_law::one_question_is_decided();
}

/// What is written of that script as its certificate is accepted behind it.
pub fn shop_is_accepted()
    ensures { ShopIsAccepted }
{
    script_law::certificate_is_accepted();
}
