//! Rules at their matches: the instantiated rule, what obstructs it, and the step. The definitions are those of double
//! pushouts by their universal property.
#![tactic(auto)]

mod growth;
mod laws;
mod matched;
#[cfg(test)]
mod tests;
mod valuation;
mod values;

pub use growth::{first_too_large, has_room, is_new, new_before, new_parts, next_after};
pub use laws::{gluing_decides, verdicts_agree};
pub use matched::{is_kept, is_matched, is_removed, name_of_left};
pub use valuation::first_entry;
pub use values::{first_without_value, set_values};
