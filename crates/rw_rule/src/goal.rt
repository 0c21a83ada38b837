//! What a rule looks for.

use crate::Condition;
use rw_pattern::Pattern;
use rw_schema::Kind;

/// A pattern that is matched, of each object whether two of its parts must have two images, the conditions on matches,
/// and the kinds of the variables, which the conditions share.
#[derive(Drop)]
pub struct Goal {
    pub left: Pattern,
    pub monic: Vec<bool>,
    pub conditions: Vec<Condition>,
    pub kinds: Vec<Kind>,
}
