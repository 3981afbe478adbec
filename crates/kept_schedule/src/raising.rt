//! Points that no literal had yet, raised: so a new point that is to come behind others does, and nothing else moves.
use crate::guessing::{newest, newest_fail, root_fails};
use crate::naming::value_at;
use idl_node::Node;
use std::alloc::{AllocError, Global};
use stn_core::Literal;

/// Which points the literals had that were looked at last.
pub struct Known {
    is_known: Vec<bool>,
    // how many literals these were
    count: usize,
}

impl Drop for Known {
    fn drop(self) {
        let Known { is_known, count: _ } = self;
        drop(is_known);
    }
}

fn mark(marks: &mut [bool], point: u32) {
    if let Some(slot) = marks.get_mut(point as usize) {
        *slot = true;
    }
}

/// A literal by which the node can be made true.
fn literal_of(nodes: &[Node], number: u32) -> Option<Literal> {
    match nodes.get(number as usize)? {
        Node::Atom(literal) => Some(*literal),
        Node::Or(members) => match nodes.get(*members.first()? as usize)? {
            Node::Atom(literal) => Some(*literal),
            _ => None,
        },
        _ => None,
    }
}

impl Known {
    /// No point is known. It takes no memory yet.
    pub fn new(alloc: Global) -> Self {
        Known {
            is_known: Vec::new(alloc),
            count: 0,
        }
    }

    /// Looks at these literals, where they are more or fewer than before.
    pub fn learn(&mut self, points: usize, literals: &[Literal]) -> Result<(), AllocError> {
        if literals.len() == self.count {
            return Ok(());
        }
        self.count = literals.len();
        self.is_known.clear();
        self.is_known.resize(points, false)?;
        for literal in literals {
            mark(&mut self.is_known, literal.x);
            mark(&mut self.is_known, literal.y);
        }
        Ok(())
    }

    /// Raises the literal's second point to where the literal holds, if it isn't known, and says whether it isn't.
    fn raise(&self, values: &mut [i64], literal: Literal) -> bool {
        let point = literal.y as usize;
        if point == 0 || self.is_known.get(point).copied() == Some(true) {
            return false;
        }
        let least = value_at(values, literal.x as usize).saturating_sub(literal.c);
        if let Some(slot) = values.get_mut(point) {
            *slot = least;
        }
        true
    }

    /// Raises points that aren't known so that the newest roots hold, and says whether these do.
    pub fn raise_newest(&self, nodes: &[Node], roots: &[u32], values: &mut [i64]) -> bool {
        for root in newest(roots) {
            if root_fails(nodes, *root, values) {
                match literal_of(nodes, *root) {
                    Some(literal) if self.raise(values, literal) => {}
                    _ => return false,
                }
            }
        }
        !newest_fail(nodes, roots, values)
    }
}
