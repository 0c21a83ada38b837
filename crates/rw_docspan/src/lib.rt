//! Spans and cospans of a document that are read from JSON, each with its exact first fault.
#![tactic(auto)]

mod cells;
mod cospan;
mod forms;
mod frame;
mod images;
mod instance;
mod laws;
mod lengths;
mod limits;
mod maps;
mod span;

pub use cospan::{Cospan, read_cospan};
pub use laws::{cospan_tells_first, instances_tell_least, maps_tell_least, span_tells_first};
pub use span::{Span, read_span};
