//! Patterns, maps and sets of rules and watches that are read from JSON, each with its exact first fault.
#![tactic(auto)]

mod bare;
mod build;
mod checks;
mod draft;
mod entry;
mod fits;
mod forms;
mod laws;
mod maps;
mod named;
mod numbered;
mod objects;
mod operation;
mod patterns;
mod sets;
mod term;
mod terms;
mod variables;
mod wants;

pub use build::{parts_with, pattern_of};
pub use draft::{Draft, draft_of};
pub use entry::{Entry, WrittenEntry};
pub use forms::{Form, form_with};
pub use laws::{maps_tell_first, patterns_tell_first};
pub use maps::read_map;
pub use objects::{read_monic, texts_or_none};
pub use patterns::{PatternRead, read_bare_pattern, read_pattern};
pub use sets::{RightRead, read_right};
pub use term::WrittenTerm;
pub use variables::{kind_of, new_name};
pub use wants::cells_of;
