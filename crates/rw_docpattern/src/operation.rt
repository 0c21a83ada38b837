//! What operations are written in.

ghost use Rattle.std.specs.Prelude.{◌≡◌, codes, map, option_and_then, option_map};
ghost use Rattle.serde_json.specs.Find.{as_str, get};
ghost use Rattle.serde_json.specs.View.{view};
ghost use Rattle.rw_doc.specs.Json.{as_list};
ghost use Rattle.rw_docpattern.specs.Operations as spec;
ghost use Rattle.rw_docpattern.specs.Views.{texts_of};

use rw_doc::{has_only, items_of};
use serde_json::Value;

/// The name of an operation, and what its operands are written as.
#[derive(Clone, Copy)]
pub(crate) struct OperationTexts<'v> {
    pub(crate) name: &'v str,
    pub(crate) first: &'v Value,
    pub(crate) second: &'v Value,
}

/// The name that is written at the key `op`.
fn name_in(value: &Value) -> Option<&str>
    ensures { option_map (λ name. name.now) result ≡ option_and_then as_str (get (codes "op") (view value.now)) }
{
    value.get("op")?.as_str()
}

/// The values that are listed at the key `args`.
fn operands_in(value: &Value) -> Option<&[Value]>
    ensures { option_map (λ items. map view items.now) result ≡ option_and_then as_list (get (codes "args") (view value.now)) }
{
    items_of(value.get("args")?)
}

/// The name, and the values, where they are two.
fn on_values<'v>(name: &'v str, values: &'v [Value]) -> Option<OperationTexts<'v>>
    ensures { option_map texts_of result ≡ spec.on_values name.now (map view values.now) }
{
    match values {
        [first, second] => Some(OperationTexts {
            name,
            first,
            second,
        }),
        _ => None,
    }
}

/// The name and the operands of the operation that the value is.
pub(crate) fn operation_texts(value: &Value) -> Option<OperationTexts<'_>>
    ensures { option_map texts_of result ≡ spec.operation_texts (view value.now) }
{
    if !has_only(&["args", "op"], value) {
        return None;
    }
    let name = name_in(value)?;
    let values = operands_in(value)?;
    on_values(name, values)
}
