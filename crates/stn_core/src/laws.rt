ghost use Rattle.stn_core.specs.Laws.{NegationLaw, EitherLaw, NegationKept, CycleLaw, OneGreatestLaw, GreatestRangeLaw};

/// A literal's negation holds exactly where the literal does not, and one of the two always does.
pub fn negation_law()
    ensures exact { NegationLaw }
    ensures either { EitherLaw }
{}

/// The negation of a literal that is within the limits is within them too.
pub fn negation_kept()
    ensures { NegationKept }
{}

/// On no values do all the literals of a negative cycle hold.
pub fn cycle_law()
    ensures { CycleLaw }
{}

/// Literals have at most one greatest schedule.
pub fn one_greatest_law()
    ensures { OneGreatestLaw }
{}

/// Every value of a greatest schedule lies strictly above `-VALUE_LIMIT` and is at most 0.
pub fn greatest_range_law()
    ensures { GreatestRangeLaw }
{}
