//! Why parts are no rule.

ghost use Rattle.std.specs.Prelude.{◌≡◌};

use rw_schema::{AttrId, OutOfMemory};
use thiserror::Error;

/// Why `Rule::build` refuses its parts: the first of these that holds, at its least place.
#[derive(Clone, Copy, Debug, PartialEq, Eq, Error)]
pub enum RuleFault {
    /// A map from the kept pattern, or that of a condition, is no map of patterns.
    #[error("a map is no map of patterns")]
    NotHom,
    /// The map to the left pattern has one image for two parts, and the kind of the rule does not allow it.
    #[error("the map to the left is not injective")]
    NotInjective,
    /// A sesqui-pushout rule, and arrows of the schema lead round a cycle.
    #[error("a sesqui-pushout rule over a schema with a cycle")]
    CyclicSqpo,
    /// The term has a variable that is on no cell of the left pattern.
    #[error("set {set} has a variable that is on no cell of the left pattern")]
    Unbound { set: u32 },
    /// The part is not there, or the term's kind, an operation, the kind of an operand or the depth does not fit.
    #[error("set {set} does not fit")]
    BadTerm { set: u32 },
    /// An earlier set is on the cell.
    #[error("set {set} is on a cell that is set already")]
    SetTwice { set: u32 },
    /// A new part has an attribute that is not set.
    #[error("an attribute of a new part is not set")]
    NoValueGiven { attr: AttrId, part: u32 },
    #[error("out of memory")]
    OutOfMemory,
}

impl From<OutOfMemory> for RuleFault {
    ghost use Rattle.rw_rule.specs.declared.fault.RuleFault.TheVariants.{OutOfMemory};

    ghost from_gives = { λ _ fault. fault ≡ OutOfMemory };

    fn from(_error: OutOfMemory) -> RuleFault {
        RuleFault::OutOfMemory
    }
}
