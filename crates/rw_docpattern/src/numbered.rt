//! Terms with numbers for names.

ghost use Rattle.std.specs.Prelude.{◌≡◌, ◌<◌, ◌≤◌, ◌^◌, IfOk, length};
ghost use Rattle.rw_terms.specs.OpEntries.{entries as operations};
ghost use Rattle.rw_terms.specs.declared.term.Term.TheVariants.{Op};
ghost use Rattle.rw_docpattern.specs.Sets as spec;

use crate::variables::number_in;
use crate::{Entry, WrittenTerm};
use rw_rule::SetCell;
use rw_schema::{NameIndex, OutOfMemory};
use rw_terms::{OpTable, Term};
use sqlite_items::Boxed;
use std::alloc::Global;

/// The number of the operation with the name, or the number after the last where it is that of none.
fn operation_in(ops: &OpTable, name: &str) -> u32
    requires { length (operations ops.now) < 2 ^ 32 }
    ensures { result ≡ spec.operation_in (operations ops.now) name.now }
{
    let number = ops.find(name).unwrap_or(ops.len());
    number as u32
}

/// The operation with the number on two terms.
fn operation(alloc: Global, number: u32, first: Term, second: Term) -> Result<Term, OutOfMemory>
    ensures { IfOk result (λ term. term ≡ Op number first second) }
{
    let first = Boxed::new(alloc, first)?;
    let second = Boxed::new(alloc, second)?;
    Ok(Term::Op(number, first, second))
}

/// The term with the numbers of its variables and operations. The stack grows with the levels of the term.
fn numbered(
    alloc: Global,
    ops: &OpTable,
    names: &NameIndex,
    term: WrittenTerm,
) -> Result<Term, OutOfMemory>
    requires operations { length (operations ops.now) < 2 ^ 32 }
    requires variables { length names.now ≤ 256 }
    ensures { IfOk result (λ numbered. numbered ≡ spec.numbered (operations ops.now) names.now term) }
{
    match term {
        WrittenTerm::Const(atom) => Ok(Term::Const(atom)),
        WrittenTerm::Var(name) => Ok(Term::Var(number_in(names, name.as_str()))),
        WrittenTerm::Op(name, first, second) => {
            let number = operation_in(ops, name.as_str());
            let first = numbered(alloc, ops, names, first.into_inner())?;
            let second = numbered(alloc, ops, names, second.into_inner())?;
            operation(alloc, number, first, second)
        }
    }
}

/// The set that the entry is.
fn set_of(
    alloc: Global,
    ops: &OpTable,
    names: &NameIndex,
    entry: Entry,
) -> Result<SetCell, OutOfMemory>
    requires operations { length (operations ops.now) < 2 ^ 32 }
    requires variables { length names.now ≤ 256 }
    ensures { IfOk result (λ set. set ≡ spec.set_of (operations ops.now) names.now entry) }
{
    let Entry { attr, part, term } = entry;
    let term = numbered(alloc, ops, names, term)?;
    Ok(SetCell { attr, part, term })
}

/// The sets that the entries are.
pub(crate) fn sets_of(
    alloc: Global,
    ops: &OpTable,
    names: &NameIndex,
    entries: Vec<Entry>,
) -> Result<Vec<SetCell>, OutOfMemory>
    requires operations { length (operations ops.now) < 2 ^ 32 }
    requires variables { length names.now ≤ 256 }
    ensures { IfOk result (λ sets. sets.items ≡ spec.sets_of (operations ops.now) names.now entries.items) }
{
    let mut sets = Vec::new(alloc);
    for entry in entries {
        sets.push(set_of(alloc, ops, names, entry)?)?;
    }
    Ok(sets)
}
