//! What a rule makes of an instance: the context and the right side, glued along what is kept, as a change of the host.
#![tactic(auto)]

mod added;
mod cell_changes;
mod cells;
mod clash;
mod end;
mod glued;
mod gluing;
mod kept;
mod lists;
mod made;
mod names;
mod removed;
mod row_changes;
mod set_values;
mod sides;
mod valuation;

pub use end::GlueEnd;
pub use gluing::glue;
pub use set_values::{NoValueEnd, SetValues, values};
pub use valuation::valuation_of;
