//! Laws of the definitions alone.
ghost use Rattle.clause_form.specs.Laws.{AssertedAreLeast, DeniedAreLeast, InnerAreLeast, ProblemFollows, ScheduleFollows, LiteralsAreOver, PointsAreFew, PointsGrow, SourcesFollow, SourcesAreParallel, SourcesAreRoots, SourcesAreWithin};

/// The asserted, denied and inner nodes are the least sets that are closed under their rules.
pub fn polarity_law()
    ensures asserted { AssertedAreLeast }
    ensures denied { DeniedAreLeast }
    ensures inner { InnerAreLeast }
{}

/// The asserted nodes are true on a schedule exactly where it is the restriction of some point values on which the problem
/// holds. The problem's literals are within the limits and over its points.
pub fn clause_form_law()
    ensures holds { ProblemFollows }
    ensures schedule { ScheduleFollows }
    ensures over { LiteralsAreOver }
    ensures few { PointsAreFew }
    ensures some { PointsGrow }
{}

/// Where the roots of some clauses are true on a schedule, these clauses hold on point values that give it. Each clause has
/// a source, which is a root for those of asserted and denied nodes.
pub fn sources_law()
    ensures follow { SourcesFollow }
    ensures parallel { SourcesAreParallel }
    ensures roots { SourcesAreRoots }
    ensures within { SourcesAreWithin }
{}
