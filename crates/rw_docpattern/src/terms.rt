//! Terms that are read from JSON.

ghost use Rattle.std.specs.Prelude.{◌≡◌, IfOk, None, [], ◌∷◌, codes, if◌then◌else◌, option_and_then, option_map};
ghost use Rattle.serde_json.specs.Find.{as_str, get};
ghost use Rattle.serde_json.specs.View.{view};
ghost use Rattle.rw_doc.specs.Json.{has_only};
ghost use Rattle.rw_docpattern.specs.Operations.{leaf_of, operation_on};
ghost use Rattle.rw_docpattern.specs.Terms as spec;

use crate::WrittenTerm;
use crate::operation::operation_texts;
use rw_doc::{atom_of, has_only};
use rw_schema::{OutOfMemory, Text};
use serde_json::Value;
use sqlite_items::Boxed;
use std::alloc::Global;

/// The name of the variable that the value is.
fn name_of_variable(value: &Value) -> Option<&str>
    ensures { option_map (λ name. name.now) result
        ≡ (if has_only (codes "var" ∷ []) (view value.now) then option_and_then as_str (get (codes "var") (view value.now)) else None) }
{
    if has_only(&["var"], value) {
        value.get("var")?.as_str()
    } else {
        None
    }
}

/// The variable that the value is, or nothing where it is none.
fn variable_of(alloc: Global, value: &Value) -> Result<Option<WrittenTerm>, OutOfMemory>
    ensures { IfOk result (λ term. term ≡ spec.variable_of (view value.now)) }
{
    let Some(name) = name_of_variable(value) else {
        return Ok(None);
    };
    let name = Text::of(alloc, name)?;
    Ok(Some(WrittenTerm::Var(name)))
}

/// The atom or the variable that the value is, or nothing where it is neither.
fn leaf_of(alloc: Global, value: &Value) -> Result<Option<WrittenTerm>, OutOfMemory>
    ensures { IfOk result (λ term. term ≡ leaf_of (view value.now)) }
{
    match atom_of(alloc, value)? {
        Some(atom) => Ok(Some(WrittenTerm::Const(atom))),
        None => variable_of(alloc, value),
    }
}

/// The operation of the name on two terms, or nothing where one of them is none.
fn operation_on(
    alloc: Global,
    name: &str,
    first: Option<WrittenTerm>,
    second: Option<WrittenTerm>,
) -> Result<Option<WrittenTerm>, OutOfMemory>
    ensures { IfOk result (λ term. term ≡ operation_on name.now first second) }
{
    let (Some(first), Some(second)) = (first, second) else {
        return Ok(None);
    };
    let name = Text::of(alloc, name)?;
    let first = Boxed::new(alloc, first)?;
    let second = Boxed::new(alloc, second)?;
    Ok(Some(WrittenTerm::Op(name, first, second)))
}

/// The term with at most so many levels that the value is, or nothing where it is none. The stack grows with the levels.
fn term_within(
    alloc: Global,
    levels: u32,
    value: &Value,
) -> Result<Option<WrittenTerm>, OutOfMemory>
    ensures { IfOk result (λ term. term ≡ spec.term_within levels (view value.now)) }
{
    if levels == 0 {
        return Ok(None);
    }
    if let Some(term) = leaf_of(alloc, value)? {
        return Ok(Some(term));
    }
    let Some(texts) = operation_texts(value) else {
        return Ok(None);
    };
    let first = term_within(alloc, levels - 1, texts.first)?;
    let second = term_within(alloc, levels - 1, texts.second)?;
    operation_on(alloc, texts.name, first, second)
}

/// How deep values nest in a text at most.
fn most_nesting() -> u32
    ensures { result ≡ spec.most_nesting }
{
    127
}

/// The term that the value is, or nothing where it is none.
pub(crate) fn term_of(alloc: Global, value: &Value) -> Result<Option<WrittenTerm>, OutOfMemory>
    ensures { IfOk result (λ term. term ≡ spec.term_of (view value.now)) }
{
    term_within(alloc, most_nesting(), value)
}
