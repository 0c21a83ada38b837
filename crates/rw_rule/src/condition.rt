//! Conditions on matches.

use rw_pattern::Pattern;
use rw_schema::PartMap;

/// A condition on a match: a pattern with a map from the pattern that is matched. A positive condition wants that the
/// match extends along the map to a match of this pattern, a negative one that it does not. The objects have the
/// condition's own marks of whether two parts must have two images. Runs do not read conditions yet.
///
/// Habel and Pennemann, "Correctness of high-level transformation systems relative to nested conditions" (2009), have
/// such conditions as their first level.
#[derive(Drop)]
pub struct Condition {
    pub positive: bool,
    pub pattern: Pattern,
    pub map: PartMap,
    pub monic: Vec<bool>,
}
