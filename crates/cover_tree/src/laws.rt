//! Laws of the definitions alone.
ghost use Rattle.std.specs.Prelude.{◌≡◌, ℕ, List, ℤ, Some};
ghost use Rattle.stn_core.specs.declared.literal.Literal.{Literal};
ghost use Rattle.cover_tree.specs.declared.node.Node.TheVariants.{Split};
ghost use Rattle.cover_tree.specs.code.Branches.{AreBranches};
ghost use Rattle.cover_tree.specs.Covers.{Cubes, IsCover, node_at};
ghost use Rattle.cover_tree.specs.Partition.{IsInOne};

/// Every list of point values satisfies exactly one leaf's cube.
pub fn partition_law()
    ensures { (c : Cubes) → IsCover c → (values : List ℤ) → IsInOne values c }
{
    stn_core::negation_law();
}

/// An inner node's branches stand behind it, and their cubes are its own with the literal, and with its
/// negation.
pub fn branches_law()
    ensures { (c : Cubes) → IsCover c
        → (k : ℕ) (l : Literal) (n : ℕ) → node_at c k ≡ Some (Split l n) → AreBranches c k l n }
{}
