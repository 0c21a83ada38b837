//! What operations compute.

ghost use Rattle.std.specs.Prelude.{◌≡◌};
ghost use Rattle.rw_terms.specs.OpValues.{op_value};

/// What an operation on two whole numbers of 64 bits computes. None of them wraps: where a result is out of range there is
/// none.
#[derive(Clone, Copy, Debug, PartialEq, Eq)]
pub enum OpCode {
    Add,
    Sub,
    Mul,
    /// The quotient, rounded toward zero.
    Div,
    /// What the quotient leaves: it has the sign of the first number.
    Rem,
    Min,
    Max,
    /// 1 where the first number is less than the second, else 0.
    Less,
}

impl OpCode {
    /// What the operation gives of two numbers: nothing where the result is out of range, or the divisor is 0.
    pub fn value(self, x: i64, y: i64) -> Option<i64>
        ensures { result ≡ op_value self x y }
    {
        match self {
            OpCode::Add => x.checked_add(y),
            OpCode::Sub => x.checked_sub(y),
            OpCode::Mul => x.checked_mul(y),
            OpCode::Div => x.checked_div(y),
            OpCode::Rem => x.checked_rem(y),
            OpCode::Min => Some(x.min(y)),
            OpCode::Max => Some(x.max(y)),
            OpCode::Less => Some(i64::from(x < y)),
        }
    }
}
