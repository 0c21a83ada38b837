//! Final pullback complements, which are the contexts of sesqui-pushout steps: the copies of host parts over a schema without
//! cycles, the largest kept set where the left map is injective, and the names that copies take. The crate has definitions and
//! lemmas, and no code but the laws that state them.
#![tactic(auto)]

mod laws;

pub use laws::{
    copies_are_counted, copyings_are_final, final_complements_are_isomorphic, has_one_copy_context,
    has_one_too_large, largest_kept_is_context,
};
