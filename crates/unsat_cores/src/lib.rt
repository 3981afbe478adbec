//! What a refutation of asserted formulas rests on: the clauses that it cites, and the formulas that these come from. No schedule
//! makes these formulas true together (`core_law`), so they are an unsatisfiable core.
#![tactic(auto)]

mod citing;
mod laws;
mod rooting;

pub use citing::cited;
pub use laws::{cited_law, core_law, lengthened_law};
pub use rooting::cited_roots;
