//! Which literals are to hold so that formulas are true: of a disjunction one that is true already, or else its first member.
use idl_node::Node;
use std::alloc::{AllocError, Global};
use stn_core::{Literal, negate};

/// Which nodes are to be true, which are to be false, and the literals that are to hold then.
pub struct Wanted {
    is_true: Vec<bool>,
    is_false: Vec<bool>,
    pub literals: Vec<Literal>,
}

impl Drop for Wanted {
    fn drop(self) {
        let Wanted {
            is_true,
            is_false,
            literals,
        } = self;
        drop(is_true);
        drop(is_false);
        drop(literals);
    }
}

fn mark(marks: &mut [bool], number: u32) {
    if let Some(slot) = marks.get_mut(number as usize) {
        *slot = true;
    }
}

fn mark_all(marks: &mut [bool], numbers: &[u32]) {
    for number in numbers {
        mark(marks, *number);
    }
}

/// So many marks, none of which is set.
fn clear_to(marks: &mut Vec<bool>, count: usize) -> Result<(), AllocError> {
    marks.clear();
    marks.resize(count, false)?;
    Ok(())
}

/// The first of these whose truth is this, or else the first.
fn chosen(members: &[u32], marks: &[bool], side: bool) -> Option<u32> {
    for member in members {
        if marks.get(*member as usize).copied() == Some(side) {
            return Some(*member);
        }
    }
    members.first().copied()
}

impl Wanted {
    /// Nothing is wanted. It takes no memory yet.
    pub fn new(alloc: Global) -> Self {
        Wanted {
            is_true: Vec::new(alloc),
            is_false: Vec::new(alloc),
            literals: Vec::new(alloc),
        }
    }

    /// What is to hold so that the node is true.
    fn want_true(&mut self, node: &Node, marks: &[bool]) -> Result<(), AllocError> {
        match node {
            Node::True => {}
            Node::Atom(literal) => self.literals.push(*literal)?,
            Node::Not(member) => mark(&mut self.is_false, *member),
            Node::And(members) => mark_all(&mut self.is_true, members),
            Node::Or(members) => {
                if let Some(member) = chosen(members, marks, true) {
                    mark(&mut self.is_true, member);
                }
            }
        }
        Ok(())
    }

    /// What is to hold so that it is false.
    fn want_false(&mut self, node: &Node, marks: &[bool]) -> Result<(), AllocError> {
        match node {
            Node::True => {}
            Node::Atom(literal) => self.literals.push(negate(*literal))?,
            Node::Not(member) => mark(&mut self.is_true, *member),
            Node::Or(members) => mark_all(&mut self.is_false, members),
            Node::And(members) => {
                if let Some(member) = chosen(members, marks, false) {
                    mark(&mut self.is_false, member);
                }
            }
        }
        Ok(())
    }

    /// The literals that are to hold so that the roots are true, where the marks tell the truth of each node now. It takes time of the
    /// order of the table and the nodes' members.
    pub fn want(
        &mut self,
        nodes: &[Node],
        roots: &[u32],
        marks: &[bool],
    ) -> Result<(), AllocError> {
        clear_to(&mut self.is_true, nodes.len())?;
        clear_to(&mut self.is_false, nodes.len())?;
        self.literals.clear();
        mark_all(&mut self.is_true, roots);
        let mut left = nodes.len();
        while left > 0 {
            left -= 1;
            if self.is_true.get(left).copied() == Some(true) {
                self.want_true(&nodes[left], marks)?;
            }
            if self.is_false.get(left).copied() == Some(true) {
                self.want_false(&nodes[left], marks)?;
            }
        }
        Ok(())
    }
}
