ghost use Rattle.std.specs.Prelude.{◌≡◌, ◌<◌, ◌≤◌, ◌-◌, [], ◌∷◌, ◌++◌, length, take, min, IfOk, OnOk, OnErr};
ghost use Rattle.inc_paths.specs.code.Graphs.{IsNewest};
ghost use Rattle.stn_core.specs.Literal.{literal_at};

use std::alloc::{AllocError, Global};
use std::marker::Model;
use stn_core::Literal;

/// Literals, found by their second points: those of a point are a list that goes from the newest to the oldest.
pub struct Arcs {
    literals: Vec<Literal>,
    /// for each point 1 more than the place of its newest literal, or 0
    heads: Vec<usize>,
    /// for each literal 1 more than the place of the next older one of its second point, or 0
    nexts: Vec<usize>,
}

impl Drop for Arcs {
    fn drop(self) {
        let Arcs {
            literals,
            heads,
            nexts,
        } = self;
        drop(literals);
        drop(heads);
        drop(nexts);
    }
}

impl Model for Arcs {
    ghost use Rattle.std.specs.Prelude.{length};
    ghost use Rattle.inc_paths.specs.code.Graphs.{Graph, IsLinked};

    ghost Value = { Graph };

    ghost view = { λ a. record { points = length a.heads.items; literals = a.literals.items } };

    ghost invariant = { λ a. IsLinked a.literals.items a.heads.items a.nexts.items };
}

impl Arcs {
    pub fn new(alloc: Global, points: u32) -> Result<Self, AllocError>
        ensures { IfOk result (λ arcs. arcs ≡ record { points = points; literals = [] }) }
    {
        Ok(Arcs {
            literals: Vec::new(alloc),
            heads: vec![in alloc; 0; points as usize]?,
            nexts: Vec::new(alloc),
        })
    }

    pub fn alloc(&self) -> Global {
        *self.literals.allocator()
    }

    fn len(&self) -> usize
        ensures { result ≡ length self.now.literals }
    {
        self.literals.len()
    }

    pub fn at(&self, place: usize) -> Literal
        requires { place < length self.now.literals }
        ensures { result ≡ literal_at self.now.literals place }
    {
        self.literals[place]
    }

    /// 1 more than the place of the newest literal with this second point, or 0.
    pub fn newest(&self, point: u32) -> usize
        requires { point < self.now.points }
        ensures { IsNewest self.now.literals point (length self.now.literals) result }
    {
        self.heads[point as usize]
    }

    /// The same of those that are older than the literal with this number, counted from 1, and with its second point.
    pub fn older(&self, number: usize) -> usize
        requires some { 1 ≤ number }
        requires within { number ≤ length self.now.literals }
        ensures { IsNewest self.now.literals (literal_at self.now.literals (number - 1)).y
            (number - 1) result }
    {
        self.nexts[number - 1]
    }

    pub fn push(&mut self, literal: Literal) -> Result<(), AllocError>
        requires { literal.y < self.old.points }
        ensures points { self.new.points ≡ self.old.points }
        ensures ok { OnOk result (self.new.literals ≡ self.old.literals ++ literal ∷ []) }
        ensures err { OnErr result (self.new.literals ≡ self.old.literals) }
    {
        let newest = self.heads[literal.y as usize];
        self.nexts.push(newest)?;
        match self.literals.push(literal) {
            Ok(()) => {
                self.heads[literal.y as usize] = self.literals.len();
                Ok(())
            }
            Err(error) => {
                self.nexts.pop();
                Err(AllocError::from(error))
            }
        }
    }

    /// Takes back the newest literal.
    fn pop(&mut self)
        requires { 0 < length self.old.literals }
        ensures points { self.new.points ≡ self.old.points }
        ensures literals { self.new.literals ≡ take (length self.old.literals - 1) self.old.literals }
    {
        let last = self.literals.len() - 1;
        let literal = self.literals[last];
        self.heads[literal.y as usize] = self.nexts[last];
        self.nexts.truncate(last);
        self.literals.truncate(last);
    }

    pub fn cut(&mut self, count: usize)
        ensures points { self.new.points ≡ self.old.points }
        ensures literals { self.new.literals ≡ take count self.old.literals }
    {
        'newest: while self.len() > count {
            self.pop();
        }
    }
}
