use std::alloc::{AllocError, AllocFailed};

/// Why there is no node.
#[derive(Clone, Copy, Debug, PartialEq, Eq)]
pub enum NodeRefusal {
    /// The table has 2^20 nodes.
    TooLarge,
}

/// Why no node is made.
#[derive(Clone, Copy, Debug, PartialEq, Eq)]
pub enum NodeError {
    Refused(NodeRefusal),
    OutOfMemory,
}

impl<T: Drop> From<AllocFailed<T>> for NodeError {
    ghost use Rattle.std.specs.Prelude.{◌≡◌};
    ghost use Rattle.idl_node.specs.declared.error.NodeError.TheVariants.{OutOfMemory};

    ghost from_gives = { λ _ e. e ≡ OutOfMemory };

    fn from(_failed: AllocFailed<T>) -> Self {
        NodeError::OutOfMemory
    }
}

impl From<AllocError> for NodeError {
    ghost use Rattle.std.specs.Prelude.{◌≡◌};
    ghost use Rattle.idl_node.specs.declared.error.NodeError.TheVariants.{OutOfMemory};

    ghost from_gives = { λ _ e. e ≡ OutOfMemory };

    fn from(_error: AllocError) -> Self {
        NodeError::OutOfMemory
    }
}
