//! What a rule is built from.

use crate::{Goal, RuleKind, SetCell};
use rw_pattern::Pattern;
use rw_schema::{PartMap, Text};

/// The parts of a rule: what is looked for, what of it is kept, what stands there afterwards and which of its cells are
/// set, and the two maps from the kept pattern.
#[derive(Drop)]
pub struct RuleParts {
    pub name: Text,
    pub kind: RuleKind,
    pub goal: Goal,
    pub keep: Pattern,
    pub right: Pattern,
    pub sets: Vec<SetCell>,
    pub l: PartMap,
    pub r: PartMap,
}
