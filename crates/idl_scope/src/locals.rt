//! The names around a term: the variables of the `let`s inside which it is read, and those of the scope.
ghost use Rattle.std.specs.Prelude.{◌≡◌, ◌<◌, ◌≤◌, ◌∷◌, [], length, OnOk, OnErr};
ghost use Rattle.idl_scope.specs.Limits.{names_limit};
ghost use Rattle.idl_scope.specs.Scopes.{found, shown_term};
ghost use Rattle.idl_scope.specs.code.Kept.{FoundIs, IsNearPlace};
ghost use Rattle.idl_scope.specs.code.LocalNames.{scope_in, without};

use crate::lowered::Lowered;
use crate::scope::{FoundName, Scope};
use indexmap::IndexMap;
use std::alloc::{AllocError, Global};
use std::marker::Model;

#[derive(Drop)]
struct Variable<'a> {
    name: &'a [u8],
    term: Lowered,
    /// The place of the variable of the same name that this one hides.
    hidden: Option<usize>,
}

/// A scope, and the variables of the `let`s inside which a term is read; all found by hash.
pub struct Locals<'s, 'a> {
    scope: &'s Scope<'a>,
    /// The innermost last.
    variables: Vec<Variable<'a>>,
    /// Of each name the place of its innermost variable.
    latest: IndexMap<&'a [u8], usize>,
}

impl Drop for Locals<'_, '_> {
    fn drop(self) {
        let Locals {
            scope: _,
            variables,
            latest,
        } = self;
        drop(variables);
        drop(latest);
    }
}

impl<'s, 'a> Model for Locals<'s, 'a> {
    ghost use Rattle.idl_scope.specs.code.LocalNames.{Inner, bindings_in, KeepsNames};

    ghost Value = { Inner };

    ghost view = { λ l. record { outer = l.scope.now; variables = bindings_in l.variables.items } };

    ghost invariant = { λ l. KeepsNames l.latest l.variables.items };
}

impl<'s, 'a> Locals<'s, 'a> {
    /// No variables. It takes no memory yet.
    pub fn new(alloc: Global, scope: &'s Scope<'a>) -> Self
        ensures { result ≡ record { outer = scope.now; variables = [] } }
    {
        Locals {
            scope,
            variables: Vec::new(alloc),
            latest: IndexMap::new(alloc),
        }
    }

    /// What the name is.
    #[inline(always)]
    pub fn find(&self, name: &[u8]) -> FoundName<'_>
        requires { length self.now.outer.declared ≤ names_limit }
        ensures is { FoundIs (found (scope_in self.now) name.now) result }
        ensures near { IsNearPlace result }
    {
        if self.variables.is_empty() {
            return self.scope.find(name);
        }
        match self.latest.get(name) {
            Some(place) => FoundName::Bound(&self.variables[*place].term),
            None => self.scope.find(name),
        }
    }

    /// One more variable, inside all others.
    pub fn bind(&mut self, name: &'a [u8], term: Lowered) -> Result<(), AllocError>
        ensures outer { self.new.outer ≡ self.old.outer }
        ensures ok { OnOk result (self.new.variables ≡ record { name = name.now; stands = shown_term term }
            ∷ self.old.variables) }
        ensures err { OnErr result (self.new ≡ self.old) }
    {
        self.variables.reserve(1)?;
        let place = self.variables.len();
        let hidden = self.latest.insert(name, place)?;
        self.variables
            .push_reserved(Variable { name, term, hidden });
        Ok(())
    }

    /// The innermost variable goes out of scope.
    fn unbind_last(&mut self)
        requires { 0 < length self.old.variables }
        ensures { self.new ≡ without 1 self.old }
    {
        if let Some(variable) = self.variables.pop() {
            match variable.hidden {
                Some(place) => {
                    if let Some(latest) = self.latest.get_mut(variable.name) {
                        *latest = place;
                    }
                }
                None => {
                    self.latest.swap_remove(variable.name);
                }
            }
        }
    }

    /// The innermost variables go out of scope.
    pub fn unbind(&mut self, count: usize)
        requires { count ≤ length self.old.variables }
        ensures { self.new ≡ without count self.old }
    {
        for _ in 0..count {
            self.unbind_last();
        }
    }
}
