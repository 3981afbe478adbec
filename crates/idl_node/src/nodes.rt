//! The node table.
ghost use Rattle.std.specs.Prelude.{◌≡◌, ◌≤◌, [], ◌<◌, length, take, OnOk, OnErr};
ghost use Rattle.idl_node.specs.Limits.{nodes_limit};
ghost use Rattle.idl_node.specs.code.Made.{Makes};
ghost use Rattle.idl_node.specs.Nodes.{node_value, placed, shown};

use crate::error::{NodeError, NodeRefusal};
use crate::limits::NODES_LIMIT;
use crate::node::Node;
use indexmap::IndexSet;
use std::alloc::Global;
use std::marker::Model;

/// Different nodes, found by hash. A node's number is its place, from 0. There are `NODES_LIMIT` at most.
pub struct Nodes {
    set: IndexSet<Node>,
}

impl Drop for Nodes {
    fn drop(self) {
        let Nodes { set } = self;
        drop(set);
    }
}

impl Model for Nodes {
    ghost use Rattle.std.specs.Prelude.{List, length, ◌≤◌};
    ghost use Rattle.idl_node.specs.Nodes.{NodeValue, shown};
    ghost use Rattle.idl_node.specs.Limits.{nodes_limit};

    ghost Value = { List NodeValue };

    ghost view = { λ n. shown n.set.keys };

    ghost invariant = { λ n. length n.set.keys ≤ nodes_limit };
}

impl Nodes {
    /// An empty table, which takes no memory yet.
    pub fn new(alloc: Global) -> Self
        ensures { result ≡ [] }
    {
        Nodes {
            set: IndexSet::new(alloc),
        }
    }

    pub fn len(&self) -> usize
        ensures count { result ≡ length self.now }
        ensures few { result ≤ nodes_limit }
    {
        self.set.len()
    }

    pub fn as_slice(&self) -> &[Node]
        ensures nodes { shown result.now ≡ self.now }
        ensures few { length result.now ≤ nodes_limit }
    {
        self.set.as_slice()
    }

    /// The number of the node that equals this one, which may be new. It takes one look-up.
    pub fn place(&mut self, node: Node) -> Result<u32, NodeError>
        ensures makes { Makes self.new (placed self.old (node_value node)) result }
        ensures err { OnErr result (self.new ≡ self.old) }
        ensures front { take (length self.old) self.new ≡ self.old }
    {
        let (number, _added) = self.set.insert_full(node)?;
        if number >= NODES_LIMIT {
            self.set.truncate(NODES_LIMIT);
            return Err(NodeError::Refused(NodeRefusal::TooLarge));
        }
        Ok(number as u32)
    }

    /// The table is cut to its first nodes.
    pub fn cut(&mut self, count: usize)
        requires { count ≤ length self.old }
        ensures { self.new ≡ take count self.old }
    {
        self.set.truncate(count);
    }

    /// What was made stays; after an error the table is cut to so many nodes.
    pub(crate) fn settle(
        &mut self,
        count: usize,
        made: Result<u32, NodeError>,
    ) -> Result<u32, NodeError>
        ensures same { result ≡ made }
        ensures ok { OnOk made (self.new ≡ self.old) }
        ensures err { OnErr made (self.new ≡ take count self.old) }
    {
        match made {
            Ok(number) => Ok(number),
            Err(error) => {
                self.set.truncate(count);
                Err(error)
            }
        }
    }
}
