//! Watches.

use crate::Goal;
use rw_schema::Text;

/// A goal with a name, whose matches are listed.
#[derive(Drop)]
pub struct Watch {
    pub name: Text,
    pub goal: Goal,
}
