//! Terms and their values.

ghost use Rattle.std.specs.Prelude.{◌≡◌, ◌<◌, IfOk, Some, length, slice_get, true};
ghost use Rattle.rw_terms.specs.OpEntries.{entries};
ghost use Rattle.rw_terms.specs.OpTables.{codes_of};
ghost use Rattle.rw_terms.specs.Terms.{applied, is_evaluable, number_in, value_of};

use crate::{OpTable, Valuation};
use rw_schema::{Atom, OutOfMemory};
use sqlite_items::Boxed;
use std::alloc::Global;

/// A term over atoms: a constant, a variable, or an operation, by its number in a table, on two terms. Each of these is
/// in a box that contracts see as the term in it.
#[derive(Drop)]
pub enum Term {
    Const(Atom),
    Var(u32),
    Op(u32, Boxed<Term>, Boxed<Term>),
}

/// The value of a term where its variables have these values: nothing exactly where some operation in it gives nothing. The
/// stack grows with the depth of the term.
pub fn eval(
    alloc: Global,
    term: &Term,
    valuation: &Valuation,
    ops: &OpTable,
) -> Result<Option<Atom>, OutOfMemory>
    requires evaluable { is_evaluable (codes_of (entries ops.now)) valuation.now term.now ≡ true }
    ensures { IfOk result (λ value. value ≡ value_of (codes_of (entries ops.now)) valuation.now term.now) }
{
    evaluate(alloc, term, valuation, ops)
}

/// The value of a term, from those of its operands.
// Apart from `eval`: a crate above does not link a function that calls itself and takes closures, where it is re-exported.
fn evaluate(
    alloc: Global,
    term: &Term,
    valuation: &Valuation,
    ops: &OpTable,
) -> Result<Option<Atom>, OutOfMemory>
    requires evaluable { is_evaluable (codes_of (entries ops.now)) valuation.now term.now ≡ true }
    ensures { IfOk result (λ value. value ≡ value_of (codes_of (entries ops.now)) valuation.now term.now) }
{
    match term {
        Term::Const(atom) => Ok(Some(atom.copy(alloc)?)),
        Term::Var(variable) => Ok(Some(value_at(alloc, valuation, *variable)?)),
        Term::Op(op, first, second) => {
            let first = evaluate(alloc, first.get(), valuation, ops)?;
            let second = evaluate(alloc, second.get(), valuation, ops)?;
            Ok(applied(ops, *op, first, second))
        }
    }
}

/// The value of a variable.
fn value_at(alloc: Global, valuation: &Valuation, variable: u32) -> Result<Atom, OutOfMemory>
    requires { variable < length valuation.now }
    ensures { IfOk result (λ value. Some value ≡ slice_get valuation.now variable) }
{
    valuation.values()[variable as usize].copy(alloc)
}

/// The number that a value is, if one is there.
fn number_in(value: Option<Atom>) -> Option<i64>
    ensures { result ≡ number_in value }
{
    match value {
        Some(Atom::Int(number)) => Some(number),
        _ => None,
    }
}

/// The value of an operation on the values of its operands.
fn applied(ops: &OpTable, op: u32, first: Option<Atom>, second: Option<Atom>) -> Option<Atom>
    requires { op < length (entries ops.now) }
    ensures { result ≡ applied (slice_get (codes_of (entries ops.now)) op) (number_in first) (number_in second) }
{
    let first = number_in(first)?;
    let second = number_in(second)?;
    let number = ops.apply(op as usize, first, second)?;
    Some(Atom::Int(number))
}
