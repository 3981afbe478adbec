//! Accepts or refuses a script with its certificate.
#![tactic(auto)]

mod asking;
mod best_entry;
mod certificate_behind;
mod check;
mod earlier;
mod entry_flaw;
mod judge;
mod judgement;
mod keeps;
mod laws;
mod made;
mod sat_entry;
mod script_part;
mod text;
mod unbounded_entry;

pub use asking::{with_question, without_question};
pub use best_entry::least_flaw;
pub use certificate_behind::{Behind, open_behind};
pub use check::{Checked, check_pair};
pub use earlier::Earlier;
pub use entry_flaw::told_by;
pub use judge::judge_script;
pub use judgement::{EntryFlaw, Judgement};
pub use keeps::{Keeps, KeepsNothing};
pub use laws::{certified_is_accepted, nothing_false_is_accepted, one_judgement, whole_examples};
pub use made::take_or_make;
pub use script_part::{Next, Part, PartEnd, next_command, read_part};
pub use text::judgement_line;
