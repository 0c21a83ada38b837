//! Schemas and instances that are read from JSON.
#![tactic(auto)]

mod arrows;
mod attributes;
mod cells;
mod end;
mod equations;
mod fault;
mod faults;
mod instance;
mod json;
mod laws;
mod limits;
mod lists;
mod numbers;
mod objects;
mod parts;
mod piece;
mod rows;
mod schema;

pub use cells::has_text_length;
pub use end::ReadDocEnd;
pub use fault::DocFault;
pub use faults::refused_of;
pub use instance::{empty_instance, read_instance, rows_of};
pub use json::{atom_of, count_of, has_only};
pub use laws::{
    arrows_tell_first, attributes_tell_first, cells_tell_first, equations_tell_first,
    failures_tell_first, instance_tells_first, objects_tell_first, parts_tell_first,
    rows_tell_first, schema_tells_first,
};
pub use limits::{LONGEST_TEXT, MOST_PARTS};
pub use lists::{items_of, read_list_or_none};
pub use numbers::{as_number, as_number_lists, as_numbers, parts_in, rows_in};
pub use objects::has_name_length;
pub use piece::Piece;
pub use schema::read_schema;
