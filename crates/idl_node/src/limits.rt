//! The limit of a node table.
ghost use Rattle.std.specs.Prelude.{◌≡◌};
ghost use Rattle.idl_node.specs.Limits.{nodes_limit};
ghost use Rattle.idl_node.specs.declared.limits.TheConstants.{NODES_LIMIT};

/// The greatest number of nodes in a table.
pub const NODES_LIMIT: usize = 1 << 20;

/// The limit that the definitions state is that of the code.
pub fn limits_law()
    ensures { nodes_limit ≡ NODES_LIMIT }
{}
