ghost use Rattle.std.specs.Prelude.{◌≡◌, ◌≤◌, ◌+◌, length, drop};
ghost use Rattle.refute_tree.specs.Moves.{moved_number, listed_number, NoneGrows};
ghost use Rattle.refute_tree.specs.code.MovedParts.{named_numbers, HasNamedPart};
ghost use Rattle.refute_tree.specs.Moves.{NumberMovesWithin};
ghost use Rattle.refute_tree.specs.code.MovedParts.{PartMovesWithin, NumbersMoveWithin};
ghost use Rattle.refute_tree.specs.code.MovedParts.{is_lemma, is_large_lemma};
ghost use Rattle.refute_tree.specs.code.Store.{small_by, large_by, used};

use crate::kind::{Kind, large_by, small_by};

fn moved_number(j: usize, seen: usize, base: usize) -> usize
    requires { NumberMovesWithin seen base j }
    ensures { result ≡ moved_number seen base j }
{
    if j < seen { j } else { j - seen + base }
}

fn moved_small(j: u32, seen: usize, base: usize) -> u32
    requires { NumberMovesWithin seen base j }
    ensures { result ≡ moved_number seen base j }
{
    moved_number(j as usize, seen, base) as u32
}

// Moves the number of the lemma that a step of this kind names, whose numbers begin at these places.
fn move_part(
    kind: Kind,
    small: &mut [u32],
    small_at: usize,
    large: &mut [usize],
    large_at: usize,
    seen: usize,
    base: usize,
)
    requires small_room { small_at + small_by kind ≤ length small.old }
    requires large_room { large_at + large_by kind ≤ length large.old }
    requires small_within { PartMovesWithin seen base (is_lemma kind) (drop small_at small.old) }
    requires large_within { PartMovesWithin seen base (is_large_lemma kind) (drop large_at large.old) }
    ensures small { HasNamedPart (moved_number seen base) (small_by kind) (is_lemma kind) small_at small.old small.new }
    ensures large { HasNamedPart (moved_number seen base) (large_by kind) (is_large_lemma kind) large_at large.old large.new }
{
    match kind {
        Kind::Lemma => small[small_at] = moved_small(small[small_at], seen, base),
        Kind::LargeLemma => large[large_at] = moved_number(large[large_at], seen, base),
        Kind::Input | Kind::LargeInput | Kind::Clash | Kind::LargeClash => {}
        Kind::Path | Kind::Cycle | Kind::Pair | Kind::LargePair => {}
        Kind::Either | Kind::LargeEither => {}
    }
}

/// Moves the numbers of the lemmas that steps of these kinds name.
pub fn move_numbers(
    kinds: &[Kind],
    small: &mut [u32],
    large: &mut [usize],
    seen: usize,
    base: usize,
)
    requires small_whole { used small_by kinds.now ≡ length small.old }
    requires large_whole { used large_by kinds.now ≡ length large.old }
    requires small_within { NumbersMoveWithin small_by is_lemma seen base kinds.now small.old }
    requires large_within { NumbersMoveWithin large_by is_large_lemma seen base kinds.now large.old }
    ensures small { small.new ≡ named_numbers small_by is_lemma (moved_number seen base) kinds.now small.old }
    ensures large { large.new ≡ named_numbers large_by is_large_lemma (moved_number seen base) kinds.now large.old }
{
    let mut small_at = 0;
    let mut large_at = 0;
    for kind in kinds {
        move_part(*kind, small, small_at, large, large_at, seen, base);
        small_at += small_by(*kind);
        large_at += large_by(*kind);
    }
}

fn listed_number(j: usize, seen: usize, numbers: &[usize], end: usize) -> usize
    ensures { result ≡ listed_number seen numbers.now end j }
{
    if j < seen {
        return j;
    }
    numbers.get(j - seen).copied().unwrap_or(end)
}

fn listed_small(j: u32, seen: usize, numbers: &[usize], end: usize) -> u32
    requires { NoneGrows (listed_number seen numbers.now end) }
    ensures { result ≡ listed_number seen numbers.now end j }
{
    listed_number(j as usize, seen, numbers, end) as u32
}

// The lemma that a step of this kind names, whose numbers begin at these places, gets the number of the list.
fn list_part(
    kind: Kind,
    small: &mut [u32],
    small_at: usize,
    large: &mut [usize],
    large_at: usize,
    seen: usize,
    numbers: &[usize],
    end: usize,
)
    requires small_room { small_at + small_by kind ≤ length small.old }
    requires large_room { large_at + large_by kind ≤ length large.old }
    requires none_grows { NoneGrows (listed_number seen numbers.now end) }
    ensures small { HasNamedPart (listed_number seen numbers.now end) (small_by kind) (is_lemma kind)
        small_at small.old small.new }
    ensures large { HasNamedPart (listed_number seen numbers.now end) (large_by kind) (is_large_lemma kind)
        large_at large.old large.new }
{
    match kind {
        Kind::Lemma => small[small_at] = listed_small(small[small_at], seen, numbers, end),
        Kind::LargeLemma => large[large_at] = listed_number(large[large_at], seen, numbers, end),
        Kind::Input | Kind::LargeInput | Kind::Clash | Kind::LargeClash => {}
        Kind::Path | Kind::Cycle | Kind::Pair | Kind::LargePair => {}
        Kind::Either | Kind::LargeEither => {}
    }
}

/// The lemmas that steps of these kinds name get the numbers of the list.
pub fn list_numbers(
    kinds: &[Kind],
    small: &mut [u32],
    large: &mut [usize],
    seen: usize,
    numbers: &[usize],
    end: usize,
)
    requires small_whole { used small_by kinds.now ≡ length small.old }
    requires large_whole { used large_by kinds.now ≡ length large.old }
    requires none_grows { NoneGrows (listed_number seen numbers.now end) }
    ensures small { small.new ≡ named_numbers small_by is_lemma (listed_number seen numbers.now end)
        kinds.now small.old }
    ensures large { large.new ≡ named_numbers large_by is_large_lemma (listed_number seen numbers.now end)
        kinds.now large.old }
{
    let mut small_at = 0;
    let mut large_at = 0;
    for kind in kinds {
        list_part(*kind, small, small_at, large, large_at, seen, numbers, end);
        small_at += small_by(*kind);
        large_at += large_by(*kind);
    }
}
