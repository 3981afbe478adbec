//! The tables that one conflict leaves to the next one, so that it costs what it rests on, and not the
//! trail's length.
ghost use Rattle.std.specs.Prelude.{◌≡◌, ◌≤◌, ◌<◌, ℕ, length, IfOk, [], slice_index, true, false};
ghost use Rattle.conflict_analysis.specs.code.Trails.{role_at, IsUsed};
ghost use Rattle.conflict_analysis.specs.code.Leaves.{at_leaves, HasPassed};
ghost use Rattle.conflict_analysis.specs.declared.entry.Role.TheVariants.{Unused};

use crate::entry::Role;
use crate::redundancy::Redundancy;
use refute_tree::Steps;
use std::alloc::{AllocError, Global};

/// A table of roles in which no place is used.
pub struct Unmarked {
    roles: Vec<Role>,
    ghost clean: { (j : ℕ) → role_at roles.items j ≡ Unused },
}

impl Drop for Unmarked {
    fn drop(self) {
        let Unmarked { roles } = self;
        drop(roles);
    }
}

impl Unmarked {
    pub fn new(alloc: Global) -> Self {
        Unmarked {
            roles: Vec::new(alloc),
        }
    }

    /// The table, for so many places at least.
    pub fn into_roles(self, count: usize) -> Result<Vec<Role>, AllocError>
        ensures count { IfOk result (λ roles. count ≤ length roles.items) }
        ensures clean { IfOk result (λ roles. (j : ℕ) → role_at roles.items j ≡ Unused) }
    {
        let Unmarked { mut roles } = self;
        'roles: while roles.len() < count {
            roles.push(Role::Unused)?;
        }
        Ok(roles)
    }
}

/// The table without the places that are used, all of which are among these.
pub fn unmark(mut roles: Vec<Role>, passed: &[usize]) -> Unmarked
    requires { (j : ℕ) → IsUsed (role_at roles.items j)
        → (i : ℕ) × (i < length passed.now) × (slice_index passed.now i ≡ j) }
{
    for k in passed {
        if *k < roles.len() {
            roles[*k] = Role::Unused;
        }
    }
    Unmarked { roles }
}

/// A table in which no place stands at leaves.
pub struct NoLeaves {
    leaves: Vec<bool>,
    ghost clean: { (k : ℕ) → at_leaves leaves.items k ≡ false },
}

impl Drop for NoLeaves {
    fn drop(self) {
        let NoLeaves { leaves } = self;
        drop(leaves);
    }
}

impl NoLeaves {
    pub fn new(alloc: Global) -> Self {
        NoLeaves {
            leaves: Vec::new(alloc),
        }
    }

    /// The table, for so many places at least.
    pub fn into_leaves(self, count: usize) -> Result<Vec<bool>, AllocError>
        ensures count { IfOk result (λ leaves. count ≤ length leaves.items) }
        ensures clean { IfOk result (λ leaves. (k : ℕ) → at_leaves leaves.items k ≡ false) }
    {
        let NoLeaves { mut leaves } = self;
        'leaves: while leaves.len() < count {
            leaves.push(false)?;
        }
        Ok(leaves)
    }
}

/// The table without the places that stand at leaves, all of which are among these.
pub fn clear(mut leaves: Vec<bool>, passed: &[usize]) -> NoLeaves
    requires { (k : ℕ) → at_leaves leaves.items k ≡ true → HasPassed passed.now 0 k }
{
    for k in passed {
        if *k < leaves.len() {
            leaves[*k] = false;
        }
    }
    NoLeaves { leaves }
}

pub struct Tables {
    pub(crate) unmarked: Unmarked,
    pub(crate) no_leaves: NoLeaves,
    pub(crate) redundancy: Redundancy,
    /// the places that the last conflict passed
    pub(crate) passed: Vec<usize>,
    /// the steps of the last lemma, in whose memory the next one's are made
    pub(crate) steps: Steps,
}

impl Drop for Tables {
    fn drop(self) {
        let Tables {
            unmarked,
            no_leaves,
            redundancy,
            passed,
            steps,
        } = self;
        drop(unmarked);
        drop(no_leaves);
        drop(redundancy);
        drop(passed);
        drop(steps);
    }
}

impl Tables {
    pub fn new(alloc: Global) -> Self {
        Tables {
            unmarked: Unmarked::new(alloc),
            no_leaves: NoLeaves::new(alloc),
            redundancy: Redundancy::new(alloc),
            passed: Vec::new(alloc),
            steps: Steps::new(alloc),
        }
    }
}
