//! Schemas of attributed C-sets: presented categories with attributes, and the plain lists that data over
//! them is kept in.
//!
//! A schema has objects, arrows between them, attributes of objects and equations between paths of arrows.
//! An instance gives each object a finite set of names, each arrow a function and each attribute a cell a
//! name; `Rows` are the lists that it is written in.
#![tactic(auto)]

mod atom;
mod cells;
mod equations;
mod fault;
mod ids;
mod limits;
mod memory;
mod name_index;
mod named;
mod numbers;
mod part_map;
mod parts;
mod path;
mod rows;
mod schema;
mod section;
mod signature;
mod text;
mod topological;

pub use atom::{Atom, Kind};
pub use equations::do_sides_meet;
pub use fault::SchemaFault;
pub use ids::{ArrowId, AttrId, ObjectId};
pub use limits::{
    LONGEST_NAME, LONGEST_PATH, MOST_ARROWS, MOST_ATTRIBUTES, MOST_EQUATIONS, MOST_OBJECTS,
};
pub use memory::OutOfMemory;
pub use name_index::NameIndex;
pub use named::Named;
pub use numbers::{copy_lists, has_number, numbers_below};
pub use part_map::PartMap;
pub use parts::{ArrowDef, AttrDef, Equation, SchemaParts};
pub use path::Path;
pub use rows::Rows;
pub use schema::Schema;
pub use section::Section;
pub use signature::{ArrowEnds, AttrEnds};
pub use text::Text;
