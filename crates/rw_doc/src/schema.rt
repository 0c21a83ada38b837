//! Schemas from JSON values.

ghost use Rattle.std.specs.Prelude.{◌≡◌, IfOk, None, option_map};
ghost use Rattle.serde_json.specs.View.{view};
ghost use Rattle.rw_schema.specs.SchemaFaults.{schema_fault};
ghost use Rattle.rw_doc.specs.Gives.{Gives};
ghost use Rattle.rw_doc.specs.Schemas as spec;
ghost use Rattle.rw_doc.specs.Sections as sections;

use crate::ReadDocEnd;
use crate::arrows::read_arrows;
use crate::attributes::read_attributes;
use crate::equations::read_equations;
use crate::faults::refused_of;
use crate::json::has_only;
use crate::objects::read_objects;
use rw_schema::{OutOfMemory, Schema, SchemaFault, SchemaParts, Section};
use serde_json::Value;
use std::alloc::Global;

/// The schema that the value is, or its first fault: the sections schema, objects, arrows, attributes and equations are
/// read in this order, and the entries of each in theirs.
pub fn read_schema(alloc: Global, value: &Value) -> Result<Schema, ReadDocEnd>
    ensures { Gives (λ schema. schema) result (spec.read_schema (view value.now)) }
{
    if !has_only(&["arrows", "attributes", "equations", "objects"], value) {
        return Err(refused_of(2, Section::Schema));
    }
    let Some(objects) = value.get("objects") else {
        return Err(refused_of(2, Section::Schema));
    };
    let Some(arrows) = value.get("arrows") else {
        return Err(refused_of(2, Section::Schema));
    };
    read_sections(
        alloc,
        objects,
        arrows,
        value.get("attributes"),
        value.get("equations"),
    )
}

/// The schema of the sections with these values.
fn read_sections(
    alloc: Global,
    objects: &Value,
    arrows: &Value,
    attributes: Option<&Value>,
    equations: Option<&Value>,
) -> Result<Schema, ReadDocEnd>
    ensures { Gives (λ schema. schema) result (sections.schema_of_sections (view objects.now) (view arrows.now)
        (option_map (λ value. view value.now) attributes.entry) (option_map (λ value. view value.now) equations.entry)) }
{
    let objects = read_objects(alloc, objects)?;
    let arrows = read_arrows(alloc, objects.as_slice(), arrows)?;
    let attributes = read_attributes(alloc, objects.as_slice(), attributes)?;
    let equations = read_equations(alloc, objects.as_slice(), arrows.as_slice(), equations)?;
    let parts = SchemaParts {
        objects,
        arrows,
        attributes,
        equations,
    };
    Ok(schema_of(alloc, parts)?)
}

/// The schema of parts that are one.
fn schema_of(alloc: Global, parts: SchemaParts) -> Result<Schema, OutOfMemory>
    requires { schema_fault (record { objects = parts.objects.items; arrows = parts.arrows.items; attributes = parts.attributes.items; equations = parts.equations.items }) ≡ None }
    ensures { IfOk result (λ schema. schema ≡ record { objects = parts.objects.items; arrows = parts.arrows.items; attributes = parts.attributes.items; equations = parts.equations.items }) }
{
    match Schema::build(alloc, parts) {
        Ok(schema) => Ok(schema),
        Err(SchemaFault::OutOfMemory) => Err(OutOfMemory),
        Err(_) => unreachable!(),
    }
}
