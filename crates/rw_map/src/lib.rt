//! Homomorphisms of instances.
#![tactic(auto)]

mod composition;
mod fault;
mod hom;
mod images;
mod kept;
mod look;
mod range;
mod shape;
mod squares;
#[cfg(test)]
mod tests;

pub use composition::compose;
pub use fault::HomFault;
pub use hom::Hom;
pub use images::{image_contains, is_injective};
pub use look::value_of;
