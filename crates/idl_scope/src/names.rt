//! The declared names.
ghost use Rattle.std.specs.Prelude.{◌≡◌, ◌≤◌, ◌<◌, ℕ, List, [], length, take, is_some, slice_get, Some, IfSome, IfOk, OnErr};
ghost use Rattle.std.specs.List.{list_any, position};
ghost use Rattle.std.specs.Str.{bytes_eq};
ghost use denote.Ref.{Bor};
ghost use Rattle.idl_scope.specs.code.Kept.{Adds, found_place, names_of};
ghost use Rattle.idl_scope.specs.Scopes.{found_declared, sorts_of};

use crate::key::Key;
use idl_node::Sort;
use indexmap::IndexSet;
use std::alloc::{AllocError, Global};
use std::marker::Model;

/// The declared names in order of declaration, with their sorts, found by hash. They are borrowed from the script.
pub struct Names<'a> {
    set: IndexSet<Key<'a>>,
    /// Of each name, in the same order.
    sorts: Vec<Sort>,
}

impl Drop for Names<'_> {
    fn drop(self) {
        let Names { set, sorts } = self;
        drop(set);
        drop(sorts);
    }
}

impl<'a> Model for Names<'a> {
    ghost use Rattle.std.specs.Prelude.{◌≡◌, List, length, map};
    ghost use Rattle.idl_scope.specs.Scopes.{Declaration};
    ghost use Rattle.idl_scope.specs.code.Kept.{declarations_of};

    ghost Value = { List Declaration };

    ghost view = { λ n. declarations_of (map (λ k. k.now) n.set.keys) n.sorts.items };

    ghost invariant = { λ n. length n.set.keys ≡ length n.sorts.items };
}

/// The place of a name in a set of names.
#[inline(always)]
fn place_of(set: &IndexSet<Key>, name: &[u8]) -> Option<usize>
    ensures index { result ≡ position (λ (k : Bor (List ℕ)). bytes_eq name.now k.now) set.now.keys }
    ensures found { is_some result ≡ list_any (λ (k : Bor (List ℕ)). bytes_eq name.now k.now) set.now.keys }
    ensures within { IfSome result (λ k. k < length set.now.keys) }
{
    set.get_index_of(&Key::new(name))
}

impl<'a> Names<'a> {
    /// No names. It takes no memory yet.
    pub fn new(alloc: Global) -> Self
        ensures { result ≡ [] }
    {
        Names {
            set: IndexSet::new(alloc),
            sorts: Vec::new(alloc),
        }
    }

    /// How many names are declared.
    pub fn len(&self) -> usize
        ensures { result ≡ length self.now }
    {
        self.sorts.len()
    }

    /// The sorts of the names, in order of declaration.
    pub fn sorts(&self) -> &[Sort]
        ensures { result.now ≡ sorts_of self.now }
    {
        &self.sorts
    }

    /// The place of a name, from 0, and its sort; found by hash, in a time in proportion to the name's length.
    #[inline(always)]
    pub fn find(&self, name: &[u8]) -> Option<(usize, Sort)>
        ensures found { found_declared name.now 0 self.now ≡ found_place result }
        ensures within { IfSome result (λ f. f.0 < length self.now) }
    {
        let place = place_of(&self.set, name)?;
        Some((place, self.sorts[place]))
    }

    /// The name at a place, from 0.
    pub fn name(&self, place: usize) -> &'a [u8]
        requires { place < length self.now }
        ensures { slice_get (names_of self.now) place ≡ Some result.now }
    {
        self.set.get_index(place).unwrap().name()
    }

    /// One more name, unless it is there; says whether it was new. It is looked up once.
    pub fn add(&mut self, name: &'a [u8], sort: Sort) -> Result<bool, AllocError>
        ensures ok { IfOk result (λ new. Adds self.old name.now sort new self.new) }
        ensures err { OnErr result (self.new ≡ self.old) }
    {
        self.sorts.reserve(1)?;
        let new = self.set.insert(Key::new(name))?;
        if !new {
            return Ok(false);
        }
        self.sorts.push_reserved(sort);
        Ok(true)
    }

    /// The first names stay.
    pub fn cut(&mut self, count: usize)
        requires { count ≤ length self.old }
        ensures { self.new ≡ take count self.old }
    {
        self.set.truncate(count);
        self.sorts.truncate(count);
    }
}
