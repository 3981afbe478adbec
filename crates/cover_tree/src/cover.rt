//! The cover itself: leaves are taken, given back, shut and divided.
ghost use Rattle.std.specs.Prelude.{◌≡◌, ◌<◌, ◌+◌, ◌^◌, ℕ, length, Some, IsTrue, ◌↔◌, IfOk, OnErr, IfSome, IfNone, slice_get};
ghost use Rattle.cover_tree.specs.declared.node.Node.TheVariants.{Free, Held, Shut};
ghost use Rattle.cover_tree.specs.Covers.{whole, with_node, divided, node_at, cube_at, holder_of, held_count, IsCover, NoneFree, NoneHeld};

use crate::link::Link;
use crate::members::Members;
use crate::node::Node;
use std::alloc::{AllocError, Global};
use std::marker::Model;
use stn_core::{Literal, Literals, negate};

/// A tree of cubes, as a flat table by number. Numbers are given in order and never again, so an inner node
/// keeps its own.
///
/// It takes some 60 bytes a number. Which leaves are free and which are held stands in two sets beside the
/// table, so that one of either is found in constant time.
pub struct Cover {
    /// Of each number but 0.
    links: Vec<Link>,
    nodes: Vec<Node>,
    free: Members,
    held: Members,
    holds: usize,
}

impl Drop for Cover {
    fn drop(self) {
        let Cover {
            links,
            nodes,
            free,
            held,
            holds: _,
        } = self;
        drop(links);
        drop(nodes);
        drop(free);
        drop(held);
    }
}

impl Model for Cover {
    ghost use Rattle.cover_tree.specs.Covers.{Cubes};
    ghost use Rattle.cover_tree.specs.code.Links.{cubes_of, AreTables};

    ghost Value = { Cubes };

    ghost view = { λ c. cubes_of c.links.items c.nodes.items };

    ghost invariant = { λ c. AreTables c.links.items c.nodes.items c.free.flags c.held.flags c.holds };
}

impl Cover {
    /// One free leaf, number 0, without literals.
    pub fn new(alloc: Global) -> Result<Self, AllocError>
        ensures { IfOk result (λ cover. cover ≡ whole) }
    {
        let mut nodes = Vec::with_capacity(alloc, 1)?;
        let mut free = Members::new(alloc);
        let mut held = Members::new(alloc);
        free.reserve(1)?;
        held.reserve(1)?;
        nodes.push_reserved(Node::Free);
        free.push_reserved();
        held.push_reserved();
        free.insert(0);
        Ok(Cover {
            links: Vec::new(alloc),
            nodes,
            free,
            held,
            holds: 0,
        })
    }

    /// A free leaf: of those that are free the one that became so last, so that who takes it works depth
    /// first.
    pub fn first_open(&self) -> Option<usize>
        ensures some { IfSome result (λ k. node_at self.now k ≡ Some Free) }
        ensures none { IfNone result (NoneFree self.now) }
    {
        match self.free.any() {
            Some(k) => Some(k),
            None => None,
        }
    }

    /// A leaf that is held, and the seat that holds it.
    pub fn first_held(&self) -> Option<(usize, u32)>
        ensures some { IfSome result (λ r. node_at self.now r.0 ≡ Some (Held r.1)) }
        ensures none { IfNone result (NoneHeld self.now) }
    {
        match self.held.any() {
            Some(k) => match self.nodes[k] {
                Node::Held(seat) => Some((k, seat)),
                _ => None,
            },
            None => None,
        }
    }

    /// The seat that holds the leaf with this number; `None` also for a number that isn't there.
    pub fn holder(&self, id: usize) -> Option<u32>
        ensures { result ≡ holder_of (node_at self.now id) }
    {
        match self.nodes.get(id) {
            Some(Node::Held(seat)) => Some(*seat),
            _ => None,
        }
    }

    /// Whether a free leaf has this number.
    pub fn is_free(&self, id: usize) -> bool
        ensures { IsTrue result ↔ (node_at self.now id ≡ Some Free) }
    {
        matches!(self.nodes.get(id), Some(Node::Free))
    }

    /// Whether every leaf is shut.
    pub fn is_closed(&self) -> bool
        ensures { IsTrue result ↔ (NoneFree self.now × NoneHeld self.now) }
    {
        self.first_open().is_none() && self.first_held().is_none()
    }

    /// How many leaves are held.
    pub fn held_count(&self) -> usize
        ensures { result ≡ held_count self.now.nodes }
    {
        self.holds
    }

    /// What stands at the number.
    pub fn node(&self, id: usize) -> Node
        requires { id < length self.now.nodes }
        ensures at { node_at self.now id ≡ Some result }
        ensures small { length self.now.nodes < 2 ^ 64 }
    {
        self.nodes[id]
    }

    /// The literals on the path to the number, outermost first. It takes time and memory in their count.
    pub fn cube_of(&self, id: usize) -> Result<Literals, AllocError>
        requires { id < length self.now.nodes }
        ensures { IfOk result (λ cube. cube ≡ cube_at self.now id) }
    {
        let mut cube = Vec::new(*self.nodes.allocator());
        let mut at = id;
        while at != 0 {
            let link = self.links[at - 1];
            cube.push(link.literal)?;
            at = link.parent;
        }
        cube.reverse();
        Ok(Literals::new(cube))
    }

    /// The seat holds the free leaf.
    pub fn take(&mut self, id: usize, seat: u32)
        requires { node_at self.old id ≡ Some Free }
        ensures { self.new ≡ with_node self.old id (Held seat) }
    {
        self.nodes[id] = Node::Held(seat);
        self.free.remove(id);
        self.held.insert(id);
        self.holds += 1;
    }

    /// The leaf that was held is free.
    pub fn release(&mut self, id: usize)
        requires { (seat : ℕ) × (node_at self.old id ≡ Some (Held seat)) }
        ensures { self.new ≡ with_node self.old id Free }
    {
        self.nodes[id] = Node::Free;
        self.held.remove(id);
        self.free.insert(id);
        self.holds -= 1;
    }

    /// The leaf that was held is shut by the lemma with this number.
    pub fn close(&mut self, id: usize, lemma: usize)
        requires { (seat : ℕ) × (node_at self.old id ≡ Some (Held seat)) }
        ensures { self.new ≡ with_node self.old id (Shut lemma) }
    {
        self.nodes[id] = Node::Shut(lemma);
        self.held.remove(id);
        self.holds -= 1;
    }

    /// The leaf that was held becomes an inner node with two free leaves: one for the literal, whose number
    /// is the first of the answer, and one for its negation.
    pub fn split(&mut self, id: usize, literal: Literal) -> Result<(usize, usize), AllocError>
        requires { (seat : ℕ) × (node_at self.old id ≡ Some (Held seat)) }
        ensures ok { IfOk result (λ r. (self.new ≡ divided self.old id literal)
            × (r.0 ≡ length self.old.nodes) × (r.1 ≡ length self.old.nodes + 1)) }
        ensures err { OnErr result (self.new ≡ self.old) }
    {
        self.links.reserve(2)?;
        self.nodes.reserve(2)?;
        self.free.reserve(2)?;
        self.held.reserve(2)?;
        let first = self.nodes.len();
        self.links.push_reserved(Link {
            parent: id,
            literal,
        });
        self.links.push_reserved(Link {
            parent: id,
            literal: negate(literal),
        });
        self.nodes[id] = Node::Split(literal, first);
        self.nodes.push_reserved(Node::Free);
        self.nodes.push_reserved(Node::Free);
        self.held.push_reserved();
        self.held.push_reserved();
        self.held.remove(id);
        self.holds -= 1;
        self.free.push_reserved();
        self.free.push_reserved();
        self.free.insert(first);
        self.free.insert(first + 1);
        Ok((first, first + 1))
    }
}
