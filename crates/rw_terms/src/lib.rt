//! Terms over atoms, and the operations in them.
//!
//! An operation is a closure that its caller hands in, beside the fact of what it answers: so a user adds arithmetic
//! under names of their own, and nothing here has to trust it.
#![tactic(auto)]

mod code;
mod fault;
mod kinds;
mod op;
mod table;
mod term;
mod valuation;

pub use code::OpCode;
pub use fault::OpFault;
pub use op::{Op, Run};
pub use sqlite_items::Boxed;
pub use table::OpTable;
pub use term::{Term, eval};
pub use valuation::Valuation;
