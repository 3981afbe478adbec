ghost use Rattle.better_schedules.specs.Laws.{NearLaw, WidthLaw};

/// Of literals of which no bound is below the negative of a width, a greatest schedule is near 0.
pub fn near_law()
    ensures { NearLaw }
{}

/// Each bound of a problem is within its width.
pub fn width_law()
    ensures { WidthLaw }
{}
