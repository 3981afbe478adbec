//! The names that terms may use.
ghost use Rattle.std.specs.Prelude.{◌≡◌, ◌<◌, ◌≤◌, ◌++◌, ◌∷◌, [], ℕ, List, length, take, false, is_some, IfSome, IfOk, OnOk, OnErr};
ghost use Rattle.std.specs.List.{list_any, position};
ghost use Rattle.std.specs.Str.{bytes_eq};
ghost use denote.Ref.{Bor};
ghost use Rattle.idl_scope.specs.code.Kept.{Declares, IsPlaceBelow, FoundIs};
ghost use Rattle.idl_scope.specs.Scopes.{Scope as Meaning, found, is_known, shown_term};

use crate::lowered::Lowered;
use crate::names::Names;
use idl_node::Sort;
use indexmap::IndexSet;
use std::alloc::{AllocError, Global};
use std::marker::Model;

/// What a name is.
#[derive(Clone, Copy)]
pub enum FoundName<'s> {
    /// A declared one, by its place, from 0.
    Declared(usize, Sort),
    /// One that stands for a term.
    Bound(&'s Lowered),
    Unknown,
}

/// The declared names, and the defined ones with what they stand for; all found by hash.
pub struct Scope<'a> {
    names: Names<'a>,
    defined: IndexSet<&'a [u8]>,
    /// Of each defined name, in the same order.
    terms: Vec<Lowered>,
}

impl Drop for Scope<'_> {
    fn drop(self) {
        let Scope {
            names,
            defined,
            terms,
        } = self;
        drop(names);
        drop(defined);
        drop(terms);
    }
}

impl<'a> Model for Scope<'a> {
    ghost use Rattle.std.specs.Prelude.{◌≡◌, length, map};
    ghost use Rattle.idl_scope.specs.Scopes.{Scope as Meaning};
    ghost use Rattle.idl_scope.specs.code.Kept.{definitions_of};

    ghost Value = { Meaning };

    ghost view = { λ s. record {
      declared = s.names;
      bound = definitions_of (map (λ k. k.now) s.defined.keys) s.terms.items;
    } };

    ghost invariant = { λ s. length s.defined.keys ≡ length s.terms.items };
}

/// The place of a name in a set. Where there is none in it, the name isn't hashed.
#[inline(always)]
fn place_among(set: &IndexSet<&[u8]>, name: &[u8]) -> Option<usize>
    ensures index { result ≡ position (λ (k : Bor (List ℕ)). bytes_eq name.now k.now) set.now.keys }
    ensures found { is_some result ≡ list_any (λ (k : Bor (List ℕ)). bytes_eq name.now k.now) set.now.keys }
    ensures within { IfSome result (λ k. k < length set.now.keys) }
{
    if set.is_empty() {
        return None;
    }
    set.get_index_of(name)
}

impl<'a> Scope<'a> {
    /// No names. It takes no memory yet.
    pub fn new(alloc: Global) -> Self
        ensures { result ≡ record { declared = []; bound = [] } }
    {
        Scope {
            names: Names::new(alloc),
            defined: IndexSet::new(alloc),
            terms: Vec::new(alloc),
        }
    }

    /// The declared names.
    pub fn names(&self) -> &Names<'a>
        ensures { result.now ≡ self.now.declared }
    {
        &self.names
    }

    /// How many names are defined.
    pub fn defined(&self) -> usize
        ensures { result ≡ length self.now.bound }
    {
        self.terms.len()
    }

    /// What a name is: a defined one, else a declared one.
    #[inline(always)]
    pub fn find(&self, name: &[u8]) -> FoundName<'_>
        ensures found { FoundIs (found self.now name.now) result }
        ensures near { IsPlaceBelow (length self.now.declared) result }
    {
        match place_among(&self.defined, name) {
            Some(place) => FoundName::Bound(&self.terms[place]),
            None => match self.names.find(name) {
                Some((place, sort)) => FoundName::Declared(place, sort),
                None => FoundName::Unknown,
            },
        }
    }

    /// Whether the name is declared or defined.
    pub fn is_known(&self, name: &[u8]) -> bool
        ensures { result ≡ is_known self.now name.now }
    {
        match self.find(name) {
            FoundName::Unknown => false,
            _ => true,
        }
    }

    /// One more declared name, unless it is known; says whether it was new. Each table is looked up once.
    pub fn declare(&mut self, name: &'a [u8], sort: Sort) -> Result<bool, AllocError>
        ensures ok { IfOk result (λ new. Declares self.old name.now sort new self.new) }
        ensures err { OnErr result (self.new ≡ self.old) }
    {
        if place_among(&self.defined, name).is_some() {
            return Ok(false);
        }
        let new = self.names.add(name, sort)?;
        Ok(new)
    }

    /// One more defined name, which isn't known yet, with what it stands for.
    pub fn define(&mut self, name: &'a [u8], term: Lowered) -> Result<(), AllocError>
        requires { is_known self.old name.now ≡ false }
        ensures ok { OnOk result (self.new
            ≡ record {
              declared = self.old.declared;
              bound = self.old.bound ++ record { name = name.now; stands = shown_term term } ∷ [];
            }) }
        ensures err { OnErr result (self.new ≡ self.old) }
    {
        self.terms.reserve(1)?;
        self.defined.insert(name)?;
        self.terms.push_reserved(term);
        Ok(())
    }

    /// The first declared names and the first defined ones stay.
    pub fn cut(&mut self, names: usize, defined: usize)
        requires names { names ≤ length self.old.declared }
        requires defined { defined ≤ length self.old.bound }
        ensures { self.new ≡ record {
          declared = take names self.old.declared;
          bound = take defined self.old.bound;
        } }
    {
        self.names.cut(names);
        self.defined.truncate(defined);
        self.terms.truncate(defined);
    }
}
