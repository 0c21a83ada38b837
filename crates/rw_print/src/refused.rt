//! The tuples at which a rule is not applied, with the obstructions, as values.

ghost use Rattle.std.specs.Prelude.{◌≡◌, ◌<◌, IfOk, length, map};
ghost use Rattle.std.specs.List.{All};
ghost use Rattle.serde_json.specs.View.{view};
ghost use Rattle.rw_rule.specs.declared.refusal.Refusal.TheVariants.{Clash};
ghost use Rattle.rw_print.specs.Lines.{name_of_arrow, name_of_attribute, name_of_object, refusal_data, refused_data, IsKnown};

use crate::atom::atom_value;
use crate::line::counts_of;
use rw_pattern::Tuple;
use rw_rule::Refusal;
use rw_schema::{ArrowId, Atom, AttrId, ObjectId, Schema};
use serde_json::{Value, json};
use std::alloc::{AllocError, Global};

fn arrow_name(schema: &Schema, arrow: ArrowId) -> &str
    requires { arrow.0 < length schema.now.arrows }
    ensures { result.now ≡ name_of_arrow schema.now arrow }
{
    schema.arrow(arrow).name.as_str()
}

pub(crate) fn attribute_name(schema: &Schema, attribute: AttrId) -> &str
    requires { attribute.0 < length schema.now.attributes }
    ensures { result.now ≡ name_of_attribute schema.now attribute }
{
    schema.attr(attribute).name.as_str()
}

pub(crate) fn object_name(schema: &Schema, object: ObjectId) -> &str
    requires { object.0 < length schema.now.objects }
    ensures { result.now ≡ name_of_object schema.now object }
{
    schema.object(object).as_str()
}

/// `["identification",object,first,second]`, `["dangling",arrow,part]`, `["no_value",attribute,part]`,
/// `["too_large",object]` or `["clash",object,name,attribute,first,second]`, with the names of arrows, attributes and objects.
fn refusal_value(alloc: Global, schema: &Schema, refusal: &Refusal) -> Result<Value, AllocError>
    requires { IsKnown schema.now refusal.now }
    ensures { IfOk result (λ value. view value ≡ refusal_data schema.now refusal.now) }
{
    match refusal {
        Refusal::Identification {
            object,
            first,
            second,
        } => { json!(in alloc; ["identification", object_name(schema, *object), *first, *second]) }
        Refusal::Dangling { arrow, part } => {
            json!(in alloc; ["dangling", arrow_name(schema, *arrow), *part])
        }
        Refusal::NoValue { right_part, attr } => {
            json!(in alloc; ["no_value", attribute_name(schema, *attr), *right_part])
        }
        Refusal::TooLarge { object } => {
            json!(in alloc; ["too_large", object_name(schema, *object)])
        }
        Refusal::Clash {
            object,
            name,
            attr,
            first,
            second,
        } => clash_value(alloc, schema, *object, *name, *attr, first, second),
    }
}

/// `["clash",object,name,attribute,first,second]`
fn clash_value(
    alloc: Global,
    schema: &Schema,
    object: ObjectId,
    name: u32,
    attr: AttrId,
    first: &Atom,
    second: &Atom,
) -> Result<Value, AllocError>
    requires object { object.0 < length schema.now.objects }
    requires attr { attr.0 < length schema.now.attributes }
    ensures { IfOk result (λ value. view value ≡ refusal_data schema.now (Clash object name attr first.now second.now)) }
{
    let first = atom_value(alloc, first)?;
    let second = atom_value(alloc, second)?;
    let object = object_name(schema, object);
    let attribute = attribute_name(schema, attr);
    json!(in alloc; ["clash", object, name, attribute, first, second])
}

/// `[tuple,obstruction]`
fn refused_value(
    alloc: Global,
    schema: &Schema,
    tuple: &Tuple,
    refusal: &Refusal,
) -> Result<Value, AllocError>
    requires { IsKnown schema.now refusal.now }
    ensures { IfOk result (λ value. view value ≡ refused_data schema.now (tuple.now, refusal.now)) }
{
    let names = Value::Array(counts_of(alloc, tuple.names())?);
    let obstruction = refusal_value(alloc, schema, refusal)?;
    json!(in alloc; [names, obstruction])
}

/// The tuples with their obstructions, as a list of values.
pub(crate) fn refused_values(
    alloc: Global,
    schema: &Schema,
    refused: &[(Tuple, Refusal)],
) -> Result<Vec<Value>, AllocError>
    requires { All (λ entry. IsKnown schema.now entry.1) refused.now }
    ensures { IfOk result (λ values. map view values.items ≡ map (refused_data schema.now) refused.now) }
{
    let mut values = Vec::new(alloc);
    for (tuple, refusal) in refused {
        values.push(refused_value(alloc, schema, tuple, refusal)?)?;
    }
    Ok(values)
}
