//! Names as keys of a table.
ghost use Rattle.std.specs.Prelude.{◌≡◌, List, ℕ, slice_index_or};
ghost use Rattle.std.specs.Cmp.{on_equiv, on_per, partial_equiv_from_equiv};
ghost use Rattle.std.specs.Cmp.Lexicographic.{nat_list_eq_equiv};
ghost use Rattle.std.specs.Str.{bytes_eq};
ghost use denote.Ref.{Bor};
ghost use Rattle.idl_scope.specs.code.Keys.{equal_feed, fed_by, padded};

use std::hash::{Hash, Hasher};
use std::marker::Model;

/// How many of a name's bytes stand in its key.
const FRONT: usize = 8;

/// A name with its first bytes beside it, so that short names are compared without a look at the script. It is seen as the name.
#[derive(Drop)]
pub(crate) struct Key<'a> {
    name: &'a [u8],
    /// Zeros stand behind a short name's bytes.
    front: [u8; FRONT],
}

impl<'a> Model for Key<'a> {
    ghost use Rattle.std.specs.Prelude.{◌≡◌, List, ℕ};
    ghost use denote.Ref.{Bor};
    ghost use Rattle.idl_scope.specs.code.Keys.{padded};

    ghost Value = { Bor (List ℕ) };

    ghost view = { λ k. k.name };

    ghost invariant = { λ k. k.front ≡ padded 8 k.name.now };
}

/// The byte at a place, or 0 where there is none.
#[inline(always)]
fn byte_at(name: &[u8], place: usize) -> u8
    ensures { result ≡ slice_index_or name.now place 0 }
{
    if place < name.len() { name[place] } else { 0 }
}

/// The first bytes of a name.
#[inline(always)]
fn front_of(name: &[u8]) -> [u8; FRONT]
    ensures { result ≡ padded 8 name.now }
{
    [
        byte_at(name, 0),
        byte_at(name, 1),
        byte_at(name, 2),
        byte_at(name, 3),
        byte_at(name, 4),
        byte_at(name, 5),
        byte_at(name, 6),
        byte_at(name, 7),
    ]
}

impl<'a> Key<'a> {
    #[inline(always)]
    pub(crate) fn new(name: &'a [u8]) -> Self
        ensures { result ≡ name.entry }
    {
        Key {
            name,
            front: front_of(name),
        }
    }

    /// The name.
    pub(crate) fn name(&self) -> &'a [u8]
        ensures { result.now ≡ self.now.now }
    {
        self.name
    }
}

impl<'a> PartialEq for Key<'a> {
    ghost eq = { λ a b. bytes_eq a.now b.now };

    ghost laws = { on_per (λ (k : Bor (List ℕ)). k.now) (partial_equiv_from_equiv nat_list_eq_equiv) };

    fn eq(&self, other: &Key<'a>) -> bool {
        self.front == other.front
            && self.name.len() == other.name.len()
            && (self.name.len() <= FRONT || self.name == other.name)
    }
}

impl<'a> Eq for Key<'a> {
    ghost laws = { on_equiv (λ (k : Bor (List ℕ)). k.now) nat_list_eq_equiv };
}

impl<'a> Hash for Key<'a> {
    ghost hash_input = { λ k. fed_by k.now };

    ghost respects_eq = { λ a b. equal_feed a.now b.now };

    fn hash<H: Hasher>(&self, state: &mut H) {
        state.write(&self.front);
        let short = self.name.len().min(FRONT);
        state.write(&self.name[short..]);
    }
}
