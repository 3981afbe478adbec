//! Laws of batches, of their definitions alone.
ghost use Rattle.refute_tree.specs.Batches.{MovedBatchLaw, JoinedLaw, ReferencesLaw};

/// A batch that is refuted over the first lemmas of a list is, after its move, refuted over any longer list that begins
/// with them.
pub fn moved_batch_law()
    ensures { MovedBatchLaw }
{}

/// Refuted lemmas, and then others that are refuted over them, are refuted one after the other.
pub fn joined_law()
    ensures { JoinedLaw }
{}

/// Refuted lemmas refer to those before them alone.
pub fn references_law()
    ensures { ReferencesLaw }
{}
