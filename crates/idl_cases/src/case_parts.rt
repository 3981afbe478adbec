//! A case that is put together.
ghost use Rattle.std.specs.Prelude.{◌≡◌, ◌∷◌, ◌++◌, [], true, IfOk, IfErr, OnErr, OnOk};
ghost use Rattle.idl_linear.specs.Differences.{difference_in};
ghost use Rattle.idl_linear.specs.Linear.{is_limited, sum_of};
ghost use Rattle.idl_linear.specs.Forms.{IsLinear};
ghost use Rattle.idl_linear.specs.code.Bounded.{IsOver};
ghost use Rattle.idl_linear.specs.code.Steps.{Refuses};
ghost use Rattle.idl_cases.specs.code.CaseSums.{pair_sum, signed_linear};

use idl_linear::{Difference, DifferenceRefusal, Linear, LinearError, compare_less, sum_less};
use std::alloc::{AllocError, Global};
use std::marker::Model;

/// A case as its guards and linear terms, whose sum needn't be within the limits.
pub struct CaseParts<'t> {
    guards: Vec<u32>,
    plus: Vec<&'t Linear>,
    minus: Vec<&'t Linear>,
}

impl Drop for CaseParts<'_> {
    fn drop(self) {
        let CaseParts {
            guards,
            plus,
            minus,
        } = self;
        drop(guards);
        drop(plus);
        drop(minus);
    }
}

impl<'t> Model for CaseParts<'t> {
    ghost use Rattle.std.specs.Prelude.{◌++◌, map};
    ghost use Rattle.idl_linear.specs.Linear.{LinearValue, negative_of, sum_of};
    ghost use Rattle.idl_cases.specs.Guarded.{CaseValue};
    ghost use Rattle.idl_cases.specs.code.Bounded.{ArePoints};

    ghost Value = { CaseValue };

    ghost view = { λ c. record {
      guards = c.guards.items;
      linear = sum_of (map (λ l. l.now) c.plus.items ++ map negative_of (map (λ l. l.now) c.minus.items));
    } };

    ghost invariant = { λ c. ArePoints (map (λ l. l.now) c.plus.items ++ map negative_of (map (λ l. l.now) c.minus.items)) };
}

impl<'t> CaseParts<'t> {
    /// No guards, and the sum of nothing. It takes no memory.
    pub fn new(alloc: Global) -> Self
        ensures { result ≡ record { guards = []; linear = sum_of [] } }
    {
        CaseParts {
            guards: Vec::new(alloc),
            plus: Vec::new(alloc),
            minus: Vec::new(alloc),
        }
    }

    /// No guards, and this linear term.
    pub(crate) fn begin_with(&mut self, linear: &'t Linear) -> Result<(), AllocError>
        ensures { OnOk result (self.new ≡ record { guards = []; linear = linear.now }) }
    {
        linear.constant();
        self.guards.clear();
        self.plus.clear();
        self.minus.clear();
        self.plus.push(linear)?;
        Ok(())
    }

    /// No guards, and the linear terms of another one.
    pub(crate) fn begin_as(&mut self, other: &CaseParts<'t>) -> Result<(), AllocError>
        ensures { OnOk result (self.new ≡ record { guards = []; linear = other.now.linear }) }
    {
        self.guards.clear();
        self.plus.clear();
        self.minus.clear();
        self.plus.extend_from_slice(&other.plus)?;
        self.minus.extend_from_slice(&other.minus)?;
        Ok(())
    }

    /// One more guard.
    pub(crate) fn guard(&mut self, guard: u32) -> Result<(), AllocError>
        ensures over { IsOver self.old.linear }
        ensures guard { OnOk result (self.new ≡ record { guards = self.old.guards ++ guard ∷ []; linear = self.old.linear }) }
    {
        self.guards.push(guard)?;
        Ok(())
    }

    /// More guards.
    pub(crate) fn guard_all(&mut self, guards: &[u32]) -> Result<(), AllocError>
        ensures over { IsOver self.old.linear }
        ensures guards { OnOk result (self.new ≡ record { guards = self.old.guards ++ guards.now; linear = self.old.linear }) }
    {
        self.guards.extend_from_slice(guards)?;
        Ok(())
    }

    /// A linear term more, or its negative.
    pub(crate) fn push(&mut self, linear: &'t Linear, is_negated: bool) -> Result<(), AllocError>
        ensures over { IsOver self.old.linear }
        ensures linear { IsLinear linear.now }
        ensures pushed { OnOk result (self.new
            ≡ record { guards = self.old.guards; linear = pair_sum self.old.linear (signed_linear is_negated linear.now) }) }
        ensures err { OnErr result (self.new ≡ self.old) }
    {
        linear.constant();
        if is_negated {
            self.minus.push(linear)?;
        } else {
            self.plus.push(linear)?;
        }
        Ok(())
    }

    /// The numbers of the nodes that are true in this case.
    pub fn guards(&self) -> &[u32]
        ensures { result.now ≡ self.now.guards }
    {
        &self.guards
    }

    /// The sum of the linear terms, where it is within the limits.
    pub(crate) fn total(&self, alloc: Global) -> Result<Linear, LinearError>
        ensures ok { IfOk result (λ l. l ≡ self.now.linear) }
        ensures limited { IfOk result (λ _. is_limited self.now.linear ≡ true) }
        ensures refused { IfErr result (λ why. Refuses why (is_limited self.now.linear)) }
    {
        let total = sum_less(alloc, &self.plus, &self.minus)?;
        Ok(total)
    }

    /// The sum of the linear terms compared with 0.
    pub fn difference(
        &self,
        alloc: Global,
    ) -> Result<Result<Difference, DifferenceRefusal>, AllocError>
        ensures { IfOk result (λ made. made ≡ difference_in self.now.linear) }
    {
        let made = compare_less(alloc, &self.plus, &self.minus)?;
        Ok(made)
    }
}
