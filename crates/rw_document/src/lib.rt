//! Documents: schemas, instances, rules, watches, spans and cospans that are read from JSON.
#![tactic(auto)]

mod document;
mod ends;
mod goals;
mod laws;
mod read;
mod values;

pub use document::Document;
pub use laws::{documents_tell_first, formats_agree};
pub use read::read_document;
