ghost use Rattle.std.specs.Prelude.{◌≡◌, ◌≤◌, ◌<◌, ◌+◌, ◌^◌, length, drop};
ghost use Rattle.refute_tree.specs.code.Store.{small_by, large_by, points_by, bounds_by, literals_by};

/// What a step is, beside its numbers, points, bounds and literals.
#[derive(Clone, Copy)]
pub enum Kind {
    /// A cycle of so many literals as its small number, each of which begins at the point where the one before it ends:
    /// that many bounds, and one point more. The points are below 2^16, and the bounds are of 32 bits.
    Path,
    /// A cycle of so many literals as its large number.
    Cycle,
    /// The cycle of a literal and its negation, of which the first is kept, as a path.
    Pair,
    /// Such a cycle of a literal that is kept as it is.
    LargePair,
    /// An input step with a number below 2^32.
    Input,
    LargeInput,
    /// A cited lemma with a number below 2^32.
    Lemma,
    LargeLemma,
    /// A clash with a number below 2^32.
    Clash,
    LargeClash,
    /// The cases of a literal that is kept as a path.
    Either,
    LargeEither,
}

/// How many small numbers stand for a step of this kind.
pub fn small_by(kind: Kind) -> usize
    ensures { result ≡ small_by kind }
{
    match kind {
        Kind::Path | Kind::Input | Kind::Lemma | Kind::Clash => 1,
        Kind::Cycle | Kind::LargeInput | Kind::LargeLemma | Kind::LargeClash => 0,
        Kind::Pair | Kind::LargePair | Kind::Either | Kind::LargeEither => 0,
    }
}

/// How many large numbers stand for a step of this kind.
pub fn large_by(kind: Kind) -> usize
    ensures { result ≡ large_by kind }
{
    match kind {
        Kind::Cycle | Kind::LargeInput | Kind::LargeLemma | Kind::LargeClash => 1,
        Kind::Path | Kind::Input | Kind::Lemma | Kind::Clash => 0,
        Kind::Pair | Kind::LargePair | Kind::Either | Kind::LargeEither => 0,
    }
}

/// How many points stand for a step of this kind, whose small numbers begin at this place.
pub fn points_by(kind: Kind, small: &[u32], at: usize) -> usize
    requires { at + small_by kind ≤ length small.now }
    ensures { result ≡ points_by kind (drop at small.now) }
{
    match kind {
        Kind::Path => small[at] as usize + 1,
        Kind::Pair | Kind::Either => 2,
        Kind::Cycle | Kind::LargePair | Kind::LargeEither => 0,
        Kind::Input | Kind::Lemma | Kind::Clash => 0,
        Kind::LargeInput | Kind::LargeLemma | Kind::LargeClash => 0,
    }
}

/// How many bounds stand for a step of this kind, whose small numbers begin at this place.
pub fn bounds_by(kind: Kind, small: &[u32], at: usize) -> usize
    requires { at + small_by kind ≤ length small.now }
    ensures { result ≡ bounds_by kind (drop at small.now) }
{
    match kind {
        Kind::Path => small[at] as usize,
        Kind::Pair | Kind::Either => 1,
        Kind::Cycle | Kind::LargePair | Kind::LargeEither => 0,
        Kind::Input | Kind::Lemma | Kind::Clash => 0,
        Kind::LargeInput | Kind::LargeLemma | Kind::LargeClash => 0,
    }
}

/// How many literals stand for a step of this kind, whose large numbers begin at this place.
pub fn literals_by(kind: Kind, large: &[usize], at: usize) -> usize
    requires { at + large_by kind ≤ length large.now }
    ensures { result ≡ literals_by kind (drop at large.now) }
{
    match kind {
        Kind::Cycle => large[at],
        Kind::LargePair | Kind::LargeEither => 1,
        Kind::Path | Kind::Pair | Kind::Either => 0,
        Kind::Input | Kind::Lemma | Kind::Clash => 0,
        Kind::LargeInput | Kind::LargeLemma | Kind::LargeClash => 0,
    }
}
