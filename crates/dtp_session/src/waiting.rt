//! An entry that isn't on the shelf yet.
use crate::shown_items::ShownItems;
use stn_core::Problem;

/// The problem that an entry refutes, and the items that it shows. A copy of these goes on the shelf when a later question comes, so that
/// behind the script's last question there is none.
#[derive(Drop)]
pub struct Waiting {
    pub problem: Problem,
    pub items: ShownItems,
}
