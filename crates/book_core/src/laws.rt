//! Laws of runs, of their definitions alone.
ghost use Rattle.book_core.specs.Facts.{SoundLaw, DividedLaw, DoneKeptLaw};
ghost use Rattle.book_core.specs.Ends.{ShortLaw, EndsLaw, FewLaw};

/// What always holds, holds after every run: the leaves are a cover, each literal of a cube is decided once,
/// each lemma is refuted over the problem and those before it and within the limits, the lemma of each shut
/// leaf excludes its cube, and the problem holds on the schedule that was found.
pub fn sound_law()
    ensures { SoundLaw }
{
    refute_tree::moved_batch_law();
    refute_tree::joined_law();
}

/// After every run each list of point values satisfies exactly one leaf's cube.
pub fn divided_law()
    ensures { DividedLaw }
{
    cover_tree::partition_law();
}

/// Done is kept by every later event.
pub fn done_kept_law()
    ensures { DoneKeptLaw }
{}

/// No cube has more literals than the clauses have together, and so, until a schedule is found, each delivery that says
/// something of its cube leaves less to do, while any other call leaves as much: whoever goes on saying something comes to
/// Done.
pub fn ends_law()
    ensures short { ShortLaw }
    ensures ends { EndsLaw }
    ensures few { FewLaw }
{
    refute_tree::moved_batch_law();
    refute_tree::joined_law();
}
