//! Operations that are handed in.

ghost use Rattle.std.specs.Prelude.{◌≡◌, ℤ, Option};
ghost use Rattle.rw_terms.specs.OpValues.{op_value};

use crate::OpCode;
use rw_schema::Text;

/// What computes an operation.
pub type Run = Box<dyn Fn(i64, i64) -> Option<i64>>;

/// An operation: a name, what it computes, and what computes it. That the latter answers the former is known by the type.
#[derive(Drop)]
pub struct Op {
    name: Text,
    code: OpCode,
    run: Run,
    ghost callable: { Run.IsAlwaysCallable run },
    ghost answers: { (x y : ℤ) (r : Option ℤ) → Run.post run x y r → r ≡ op_value code x y },
}

impl Op {
    ghost use Rattle.rw_terms.specs.OpEntries.{entry};

    /// An operation of the name. It takes no memory.
    pub fn new(name: Text, code: OpCode, run: Run) -> Op
        requires callable { Run.IsAlwaysCallable run }
        requires answers { (x y : ℤ) (r : Option ℤ) → Run.post run x y r → r ≡ op_value code x y }
        ensures { entry result ≡ record { name = name; code = code } }
    {
        Op { name, code, run }
    }

    pub fn name(&self) -> &str
        ensures { result.now ≡ self.now.name }
    {
        self.name.as_str()
    }

    /// What the operation gives of two numbers.
    pub(crate) fn apply(&self, x: i64, y: i64) -> Option<i64>
        ensures { result ≡ op_value self.now.code x y }
    {
        (self.run)(x, y)
    }
}
