//! The nodes whose clauses are written.
ghost use Rattle.std.specs.Prelude.{◌≡◌, length};

use idl_node::Node;

/// The nodes, and for each the fresh point that it has where it's inner.
#[derive(Clone, Copy)]
pub struct Form<'a> {
    pub nodes: &'a [Node],
    pub fresh: &'a [u32],
    pub ghost same: { length fresh.now ≡ length nodes.now },
}

/// Whether a node is asserted, denied and inner.
#[derive(Clone, Copy)]
pub struct Marks {
    pub asserted: bool,
    pub denied: bool,
    pub inner: bool,
}
