//! The line of a step.

ghost use Rattle.std.specs.Prelude.{◌≡◌, IfOk};
ghost use Rattle.std.specs.List.{All};
ghost use Rattle.std.specs.Option.{option_map};
ghost use Rattle.serde_json.specs.View.{view};
ghost use Rattle.rw_lists.specs.News.{numbered_lists};
ghost use Rattle.rw_print.specs.Lines.{line, applied_data, step_data, IsKnown};

use crate::line::{counts_of, line_of};
use crate::news::news_values;
use crate::refused::refused_values;
use rw_lists::ListsNews;
use rw_pattern::Tuple;
use rw_rule::Refusal;
use rw_schema::{OutOfMemory, Schema, Text};
use serde_json::{Value, json};
use std::alloc::{AllocError, Global};

/// The line `{"box":place,"lists":[[number,gone,new],..],"match":tuple or null,"refused":[[tuple,obstruction],..],"rule":name}`.
/// Arrows, attributes and objects of obstructions are printed by name.
pub fn step_line(
    alloc: Global,
    schema: &Schema,
    place: u32,
    rule: &Text,
    tuple: Option<&Tuple>,
    lists: &ListsNews,
    refused: &Vec<(Tuple, Refusal)>,
) -> Result<Vec<u8>, OutOfMemory>
    requires { All (λ entry. IsKnown schema.now entry.1) refused.now.items }
    ensures { IfOk result (λ text. text.items ≡
        line (step_data schema.now place rule.now (option_map (λ tuple. tuple.now) tuple.entry) (numbered_lists lists.now) refused.now.items)) }
{
    let value = step_value(alloc, schema, place, rule, tuple, lists, refused.as_slice())?;
    line_of(alloc, &value)
}

fn step_value(
    alloc: Global,
    schema: &Schema,
    place: u32,
    rule: &Text,
    tuple: Option<&Tuple>,
    lists: &ListsNews,
    refused: &[(Tuple, Refusal)],
) -> Result<Value, AllocError>
    requires { All (λ entry. IsKnown schema.now entry.1) refused.now }
    ensures { IfOk result (λ value. view value ≡
        step_data schema.now place rule.now (option_map (λ tuple. tuple.now) tuple.entry) (numbered_lists lists.now) refused.now) }
{
    let lists = Value::Array(news_values(alloc, lists.lists.as_slice())?);
    let applied = applied_value(alloc, tuple)?;
    let refused = Value::Array(refused_values(alloc, schema, refused)?);
    json!(in alloc; {"box": place, "lists": lists, "match": applied, "refused": refused, "rule": rule.as_str()})
}

/// The names of the tuple, or `null` where nothing was applied.
fn applied_value(alloc: Global, tuple: Option<&Tuple>) -> Result<Value, AllocError>
    ensures { IfOk result (λ value. view value ≡ applied_data (option_map (λ tuple. tuple.now) tuple.entry)) }
{
    match tuple {
        Some(tuple) => Ok(Value::Array(counts_of(alloc, tuple.names())?)),
        None => Ok(Value::Null),
    }
}
