ghost use Rattle.kept_lemmas.specs.Laws.{ItemsLaw, EntriesGoOn, ShelfGoesOn, UsableLaw, OwnLaw};

/// A problem that items refute over right entries holds on no values of its points. Right entries stay so when a right one
/// comes behind them, and the shelf has its facts then.
pub fn entries_law()
    ensures items { ItemsLaw }
    ensures goes_on { EntriesGoOn }
    ensures shelf { ShelfGoesOn }
{
    stn_core::cycle_law();
    stn_core::negation_law();
}

/// What right items state may be used in their problem.
pub fn usable_law()
    ensures { UsableLaw }
{}

/// Lemmas of an entry's own are right exactly where they are a refutation.
pub fn own_law()
    ensures { OwnLaw }
{}
