ghost use Rattle.std.specs.Prelude.{◌≡◌, ◌≤◌, ◌++◌, ◌∷◌, [], length, take, drop, OnOk, OnErr, IfOk};
ghost use Rattle.refute_tree.specs.code.Lists.{AreNone, AreSame, AreExtended, BeginAs, AreCut, AreCutOut, HavePath, HaveNarrow, HaveSmall};
ghost use Rattle.refute_tree.specs.code.Lists.{AreSlices, SlicesAreWhole, IsEnd, IsPlaceOf, EndsStep, IsBeforeStep};
ghost use Rattle.refute_tree.specs.code.Lists.{IsBefore, IsWithin};
ghost use Rattle.refute_tree.specs.code.Paths.{IsNarrow, IsShortPath};

use crate::kind::{Kind, bounds_by, large_by, literals_by, points_by, small_by};
use crate::narrow::{push_bounds, push_points};
use std::alloc::{AllocError, Global};
use stn_core::Literal;

/// The lists that steps are kept in.
pub struct Lists {
    pub kinds: Vec<Kind>,
    pub small: Vec<u32>,
    pub large: Vec<usize>,
    pub points: Vec<u16>,
    pub bounds: Vec<i32>,
    pub literals: Vec<Literal>,
}

impl Drop for Lists {
    fn drop(self) {
        let Lists {
            kinds,
            small,
            large,
            points,
            bounds,
            literals,
        } = self;
        drop(kinds);
        drop(small);
        drop(large);
        drop(points);
        drop(bounds);
        drop(literals);
    }
}

/// A part of the lists, borrowed.
#[derive(Clone, Copy)]
pub struct Slices<'a> {
    pub kinds: &'a [Kind],
    pub small: &'a [u32],
    pub large: &'a [usize],
    pub points: &'a [u16],
    pub bounds: &'a [i32],
    pub literals: &'a [Literal],
}

/// Where what a step has stands in each list.
#[derive(Clone, Copy)]
pub struct Place {
    pub kinds: usize,
    pub small: usize,
    pub large: usize,
    pub points: usize,
    pub bounds: usize,
    pub literals: usize,
}

// Where that begins which a step of this kind has, where this place is its end.
fn before(slices: Slices<'_>, place: Place, kind: Kind) -> Place
    requires { EndsStep slices kind place }
    ensures { IsBeforeStep slices.entry kind place result }
{
    let small = place.small - small_by(kind);
    let large = place.large - large_by(kind);
    Place {
        kinds: place.kinds - 1,
        small,
        large,
        points: place.points - points_by(kind, slices.small, small),
        bounds: place.bounds - bounds_by(kind, slices.small, small),
        literals: place.literals - literals_by(kind, slices.large, large),
    }
}

/// Where that begins which the step with this number has; for the count of the steps, where all ends. It goes over
/// the kinds from the last one on.
pub fn place_of(slices: Slices<'_>, step: usize) -> Place
    requires whole { SlicesAreWhole slices }
    requires step { step ≤ length slices.kinds.now }
    ensures { IsPlaceOf slices.entry step result }
{
    let mut place = Place {
        kinds: slices.kinds.len(),
        small: slices.small.len(),
        large: slices.large.len(),
        points: slices.points.len(),
        bounds: slices.bounds.len(),
        literals: slices.literals.len(),
    };
    'back: while place.kinds > step {
        place = before(slices, place, slices.kinds[place.kinds - 1]);
    }
    place
}

fn cut_out<T: Drop>(list: &mut Vec<T>, low: usize, high: usize)
    requires order { low ≤ high }
    requires within { high ≤ length list.old.items }
    ensures { list.new.items ≡ take low list.old.items ++ drop high list.old.items }
{
    list.drain(low..high);
}

impl Lists {
    pub fn new(alloc: Global) -> Self
        ensures { AreNone result }
    {
        Lists {
            kinds: Vec::new(alloc),
            small: Vec::new(alloc),
            large: Vec::new(alloc),
            points: Vec::new(alloc),
            bounds: Vec::new(alloc),
            literals: Vec::new(alloc),
        }
    }

    pub fn slices(&self) -> Slices<'_>
        ensures { AreSlices self.now result }
    {
        Slices {
            kinds: self.kinds.as_slice(),
            small: self.small.as_slice(),
            large: self.large.as_slice(),
            points: self.points.as_slice(),
            bounds: self.bounds.as_slice(),
            literals: self.literals.as_slice(),
        }
    }

    // Without memory, perhaps some of the slices are appended.
    fn try_extend(&mut self, more: Slices<'_>) -> Result<(), AllocError>
        ensures ok { OnOk result (AreExtended self.old more.entry self.new) }
        ensures front { BeginAs self.old self.new }
    {
        self.kinds.extend_from_slice(more.kinds)?;
        self.small.extend_from_slice(more.small)?;
        self.large.extend_from_slice(more.large)?;
        self.points.extend_from_slice(more.points)?;
        self.bounds.extend_from_slice(more.bounds)?;
        self.literals.extend_from_slice(more.literals)
    }

    // Where the lists end.
    fn end(&self) -> Place
        ensures { IsEnd self.now result }
    {
        Place {
            kinds: self.kinds.len(),
            small: self.small.len(),
            large: self.large.len(),
            points: self.points.len(),
            bounds: self.bounds.len(),
            literals: self.literals.len(),
        }
    }

    fn truncate(&mut self, end: Place)
        ensures { AreCut self.old end self.new }
    {
        self.kinds.truncate(end.kinds);
        self.small.truncate(end.small);
        self.large.truncate(end.large);
        self.points.truncate(end.points);
        self.bounds.truncate(end.bounds);
        self.literals.truncate(end.literals);
    }

    /// Appends the slices; without memory, none of them.
    pub fn extend(&mut self, more: Slices<'_>) -> Result<(), AllocError>
        ensures ok { OnOk result (AreExtended self.old more.entry self.new) }
        ensures err { OnErr result (AreSame self.old self.new) }
    {
        let end = self.end();
        match self.try_extend(more) {
            Ok(()) => Ok(()),
            Err(error) => {
                self.truncate(end);
                Err(error)
            }
        }
    }

    // Without memory, perhaps a part of it is appended.
    fn try_push_path(&mut self, literals: &[Literal]) -> Result<(), AllocError>
        requires { IsShortPath literals.now }
        ensures ok { OnOk result (HavePath self.old literals.now self.new) }
        ensures front { BeginAs self.old self.new }
    {
        self.kinds.push(Kind::Path)?;
        self.small.push(literals.len() as u32)?;
        push_points(literals, &mut self.points)?;
        push_bounds(literals, &mut self.bounds)
    }

    /// Appends a cycle as a path; without memory, nothing of it.
    pub fn push_path(&mut self, literals: &[Literal]) -> Result<(), AllocError>
        requires { IsShortPath literals.now }
        ensures ok { OnOk result (HavePath self.old literals.now self.new) }
        ensures err { OnErr result (AreSame self.old self.new) }
    {
        let end = self.end();
        match self.try_push_path(literals) {
            Ok(()) => Ok(()),
            Err(error) => {
                self.truncate(end);
                Err(error)
            }
        }
    }

    // Without memory, perhaps a part of it is appended.
    fn try_push_narrow(&mut self, kind: Kind, literal: Literal) -> Result<(), AllocError>
        requires { IsNarrow literal }
        ensures ok { OnOk result (HaveNarrow self.old kind literal self.new) }
        ensures front { BeginAs self.old self.new }
    {
        self.kinds.push(kind)?;
        self.points.push(literal.x as u16)?;
        self.points.push(literal.y as u16)?;
        self.bounds.push(literal.c as i32)?;
        Ok(())
    }

    /// Appends a step of a narrow literal; without memory, nothing of it.
    pub fn push_narrow(&mut self, kind: Kind, literal: Literal) -> Result<(), AllocError>
        requires { IsNarrow literal }
        ensures ok { OnOk result (HaveNarrow self.old kind literal self.new) }
        ensures err { OnErr result (AreSame self.old self.new) }
    {
        let end = self.end();
        match self.try_push_narrow(kind, literal) {
            Ok(()) => Ok(()),
            Err(error) => {
                self.truncate(end);
                Err(error)
            }
        }
    }

    // Without memory, perhaps a part of it is appended.
    fn try_push_small(&mut self, kind: Kind, number: u32) -> Result<(), AllocError>
        ensures ok { OnOk result (HaveSmall self.old kind number self.new) }
        ensures front { BeginAs self.old self.new }
    {
        self.kinds.push(kind)?;
        self.small.push(number)?;
        Ok(())
    }

    /// Appends a step of a small number; without memory, nothing of it.
    pub fn push_small(&mut self, kind: Kind, number: u32) -> Result<(), AllocError>
        ensures ok { OnOk result (HaveSmall self.old kind number self.new) }
        ensures err { OnErr result (AreSame self.old self.new) }
    {
        let end = self.end();
        match self.try_push_small(kind, number) {
            Ok(()) => Ok(()),
            Err(error) => {
                self.truncate(end);
                Err(error)
            }
        }
    }

    /// Takes out what stands from one place up to another.
    pub fn cut_out(&mut self, low: Place, high: Place)
        requires order { IsBefore low high }
        requires within { IsWithin self.old high }
        ensures { AreCutOut self.old low high self.new }
    {
        cut_out(&mut self.kinds, low.kinds, high.kinds);
        cut_out(&mut self.small, low.small, high.small);
        cut_out(&mut self.large, low.large, high.large);
        cut_out(&mut self.points, low.points, high.points);
        cut_out(&mut self.bounds, low.bounds, high.bounds);
        cut_out(&mut self.literals, low.literals, high.literals);
    }

    /// Takes out all that stands in them, and keeps the memory.
    pub fn clear(&mut self)
        ensures { AreNone self.new }
    {
        self.kinds.truncate(0);
        self.small.truncate(0);
        self.large.truncate(0);
        self.points.truncate(0);
        self.bounds.truncate(0);
        self.literals.truncate(0);
    }

    /// Gives back the memory that isn't needed.
    pub fn shrink_to_fit(&mut self)
        ensures { AreSame self.old self.new }
    {
        self.kinds.shrink_to_fit();
        self.small.shrink_to_fit();
        self.large.shrink_to_fit();
        self.points.shrink_to_fit();
        self.bounds.shrink_to_fit();
        self.literals.shrink_to_fit();
    }

    pub fn copy(&self, alloc: Global) -> Result<Lists, AllocError>
        ensures { IfOk result (AreSame self.now) }
    {
        Ok(Lists {
            kinds: Vec::from_slice(alloc, self.kinds.as_slice())?,
            small: Vec::from_slice(alloc, self.small.as_slice())?,
            large: Vec::from_slice(alloc, self.large.as_slice())?,
            points: Vec::from_slice(alloc, self.points.as_slice())?,
            bounds: Vec::from_slice(alloc, self.bounds.as_slice())?,
            literals: Vec::from_slice(alloc, self.literals.as_slice())?,
        })
    }
}
