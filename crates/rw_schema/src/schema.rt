//! Schemas.

ghost use Rattle.std.specs.Prelude.{◌≡◌, ◌<◌, ◌≤◌, IfOk, length, true, slice_get, Some, position};
ghost use Rattle.std.specs.Option.{option_map};
ghost use Rattle.std.specs.List.{list_all};
ghost use Rattle.std.specs.Str.{bytes_eq};
ghost use Rattle.rw_schema.specs.First.{or_else};
ghost use Rattle.rw_schema.specs.Signature.{IsCategory};
ghost use Rattle.rw_schema.specs.Presentation.{Presentation, signature_of};
ghost use Rattle.rw_schema.specs.Topological.{OrdersObjects};
ghost use Rattle.rw_schema.specs.SchemaFaults.{has_ends, has_holder, is_of_schema, first_unknown, first_homeless, first_nameless, first_apart, BuildsSchema};
ghost use Rattle.rw_schema.specs.inner.SchemaFaults.{IndexesNames};

use crate::equations::first_ill_formed;
use crate::limits::are_within_limits;
use crate::topological::order_of;
use crate::{
    ArrowDef, ArrowId, AttrDef, AttrId, Equation, NameIndex, Named, ObjectId, OutOfMemory,
    SchemaFault, SchemaParts, Section, Text,
};
use std::alloc::Global;
use std::marker::Model;

/// A schema: a finite presentation of a category with attributes, whose objects, arrows and attributes have
/// names. That it is well formed is known by its type.
///
/// Spivak, "Functorial data migration" (2012), has schemas as presented categories.
#[derive(Drop)]
pub struct Schema {
    objects: Vec<Text>,
    arrows: Vec<ArrowDef>,
    attributes: Vec<AttrDef>,
    equations: Vec<Equation>,
    object_names: NameIndex,
    arrow_names: NameIndex,
    attribute_names: NameIndex,
}

impl Model for Schema {
    ghost use Rattle.std.specs.Prelude.{◌≡◌, None, map};
    ghost use Rattle.rw_schema.specs.Presentation.{Presentation};
    ghost use Rattle.rw_schema.specs.SchemaFaults.{schema_fault, arrow_name, attribute_name};

    ghost Value = { Presentation };

    ghost view = { λ schema. record {
      objects = schema.objects.items;
      arrows = schema.arrows.items;
      attributes = schema.attributes.items;
      equations = schema.equations.items;
    } };

    ghost invariant = { λ schema.
        (schema_fault (record { objects = schema.objects.items; arrows = schema.arrows.items; attributes = schema.attributes.items; equations = schema.equations.items }) ≡ None)
        × (schema.object_names ≡ schema.objects.items)
        × (schema.arrow_names ≡ map arrow_name schema.arrows.items)
        × (schema.attribute_names ≡ map attribute_name schema.attributes.items) };
}

impl Schema {
    /// Builds a schema of the parts. The first condition that fails is answered, at its least place.
    pub fn build(alloc: Global, parts: SchemaParts) -> Result<Schema, SchemaFault>
        ensures { BuildsSchema (record { objects = parts.objects.items; arrows = parts.arrows.items; attributes = parts.attributes.items; equations = parts.equations.items }) result }
    {
        let SchemaParts {
            objects,
            arrows,
            attributes,
            equations,
        } = parts;
        if !are_within_limits(
            objects.as_slice(),
            arrows.as_slice(),
            attributes.as_slice(),
            equations.as_slice(),
        ) {
            return Err(SchemaFault::Limit);
        }
        let object_names = index_names(alloc, Section::Objects, objects.as_slice())?;
        let arrow_names = index_names(alloc, Section::Arrows, arrows.as_slice())?;
        let attribute_names = index_names(alloc, Section::Attributes, attributes.as_slice())?;
        if let Some(fault) = first_misplaced(
            objects.len(),
            arrows.as_slice(),
            attributes.as_slice(),
            equations.as_slice(),
        ) {
            return Err(fault);
        }
        Ok(Schema {
            objects,
            arrows,
            attributes,
            equations,
            object_names,
            arrow_names,
            attribute_names,
        })
    }

    /// The object with the name.
    pub fn object_of(&self, name: &str) -> Option<ObjectId>
        ensures { option_map (λ object. object.0) result ≡ position (bytes_eq name.now) self.now.objects }
    {
        let place = self.object_names.number_of(name)?;
        Some(ObjectId(place as u16))
    }

    /// The arrow with the name.
    pub fn arrow_of(&self, name: &str) -> Option<ArrowId>
        ensures { option_map (λ arrow. arrow.0) result ≡ position (λ arrow. bytes_eq name.now arrow.name) self.now.arrows }
    {
        let place = self.arrow_names.number_of(name)?;
        Some(ArrowId(place as u16))
    }

    /// The attribute with the name.
    pub fn attr_of(&self, name: &str) -> Option<AttrId>
        ensures { option_map (λ attribute. attribute.0) result ≡ position (λ attribute. bytes_eq name.now attribute.name) self.now.attributes }
    {
        let place = self.attribute_names.number_of(name)?;
        Some(AttrId(place as u16))
    }

    /// The number of objects.
    pub fn objects(&self) -> usize
        ensures value { result ≡ length self.now.objects }
        ensures few { result ≤ 64 }
    {
        self.objects.len()
    }

    /// The number of arrows.
    pub fn arrows(&self) -> usize
        ensures value { result ≡ length self.now.arrows }
        ensures few { result ≤ 256 }
    {
        self.arrows.len()
    }

    /// The number of attributes.
    pub fn attributes(&self) -> usize
        ensures value { result ≡ length self.now.attributes }
        ensures few { result ≤ 256 }
    {
        self.attributes.len()
    }

    /// The number of equations.
    pub fn equations(&self) -> usize
        ensures value { result ≡ length self.now.equations }
        ensures few { result ≤ 256 }
    {
        self.equations.len()
    }

    /// The name of an object.
    pub fn object(&self, object: ObjectId) -> &Text
        requires { object.0 < length self.now.objects }
        ensures { slice_get self.now.objects object.0 ≡ Some result.now }
    {
        &self.objects[object.0 as usize]
    }

    /// An arrow.
    pub fn arrow(&self, arrow: ArrowId) -> &ArrowDef
        requires { arrow.0 < length self.now.arrows }
        ensures entry { slice_get self.now.arrows arrow.0 ≡ Some result.now }
        ensures source { result.now.source.0 < length self.now.objects }
        ensures target { result.now.target.0 < length self.now.objects }
    {
        &self.arrows[arrow.0 as usize]
    }

    /// An attribute.
    pub fn attr(&self, attribute: AttrId) -> &AttrDef
        requires { attribute.0 < length self.now.attributes }
        ensures entry { slice_get self.now.attributes attribute.0 ≡ Some result.now }
        ensures holder { result.now.object.0 < length self.now.objects }
    {
        &self.attributes[attribute.0 as usize]
    }

    /// An equation.
    pub fn equation(&self, place: usize) -> &Equation
        requires { place < length self.now.equations }
        ensures { slice_get self.now.equations place ≡ Some result.now }
    {
        &self.equations[place]
    }

    /// An order of the objects in which the target of each arrow stands before its source, or nothing where arrows
    /// lead round a cycle. The time is quadratic in the objects for each arrow.
    pub fn topological(&self, alloc: Global) -> Result<Option<Vec<ObjectId>>, OutOfMemory>
        ensures { IfOk result (λ order. OrdersObjects (signature_of self.now) (option_map (λ list. list.items) order)) }
    {
        let arrows = self.arrow_list();
        order_of(alloc, self.objects.len(), arrows)
    }

    /// All arrows, in order.
    pub fn arrow_list(&self) -> &[ArrowDef]
        ensures value { result.now ≡ self.now.arrows }
        ensures few { length self.now.arrows ≤ 256 }
        ensures objects { length self.now.objects ≤ 64 }
        ensures ends { list_all (has_ends (length self.now.objects)) self.now.arrows ≡ true }
        ensures category { IsCategory (signature_of self.now) }
    {
        self.arrows.as_slice()
    }

    /// All attributes, in order.
    pub fn attribute_list(&self) -> &[AttrDef]
        ensures value { result.now ≡ self.now.attributes }
        ensures few { length self.now.attributes ≤ 256 }
        ensures holders { list_all (has_holder (length self.now.objects)) self.now.attributes ≡ true }
    {
        self.attributes.as_slice()
    }

    /// All equations, in order.
    pub fn equation_list(&self) -> &[Equation]
        ensures value { result.now ≡ self.now.equations }
        ensures few { length self.now.equations ≤ 256 }
        ensures numbers { list_all (is_of_schema (length self.now.objects) (length self.now.arrows)) self.now.equations ≡ true }
    {
        self.equations.as_slice()
    }
}

/// The index of the items' names, or the first item whose name an earlier one has.
fn index_names<T: Named>(
    alloc: Global,
    section: Section,
    items: &[T],
) -> Result<NameIndex, SchemaFault>
    requires { length items.now < 257 }
    ensures { IndexesNames T.name_of section items.now result }
{
    let mut names = NameIndex::new(alloc);
    for (place, item) in items.iter().enumerate() {
        let name = item.name().as_str();
        if names.has(name) {
            return Err(SchemaFault::Twice {
                section,
                index: place as u32,
            });
        }
        names.push(alloc, name)?;
    }
    Ok(names)
}

/// Whether both ends of the arrow are objects.
fn are_objects(objects: usize, arrow: &ArrowDef) -> bool
    ensures { result ≡ has_ends objects arrow.now }
{
    (arrow.source.0 as usize) < objects && (arrow.target.0 as usize) < objects
}

/// The first arrow with an end that is no object.
fn unknown_end(objects: usize, arrows: &[ArrowDef]) -> Option<SchemaFault>
    requires { length arrows.now < 257 }
    ensures { result ≡ first_unknown objects arrows.now }
{
    for (place, arrow) in arrows.iter().enumerate() {
        if !are_objects(objects, arrow) {
            return Some(SchemaFault::Unknown {
                section: Section::Arrows,
                index: place as u32,
            });
        }
    }
    None
}

/// Whether the attribute belongs to an object.
fn is_held(objects: usize, attribute: &AttrDef) -> bool
    ensures { result ≡ has_holder objects attribute.now }
{
    (attribute.object.0 as usize) < objects
}

/// The first attribute of a number that is no object.
fn unknown_holder(objects: usize, attributes: &[AttrDef]) -> Option<SchemaFault>
    requires { length attributes.now < 257 }
    ensures { result ≡ first_homeless objects attributes.now }
{
    for (place, attribute) in attributes.iter().enumerate() {
        if !is_held(objects, attribute) {
            return Some(SchemaFault::Unknown {
                section: Section::Attributes,
                index: place as u32,
            });
        }
    }
    None
}

/// The first number that names nothing, or the first equation whose sides do not meet.
fn first_misplaced(
    objects: usize,
    arrows: &[ArrowDef],
    attributes: &[AttrDef],
    equations: &[Equation],
) -> Option<SchemaFault>
    requires arrows { length arrows.now < 257 }
    requires attributes { length attributes.now < 257 }
    requires equations { length equations.now < 257 }
    ensures { result ≡ or_else (first_unknown objects arrows.now) (or_else (first_homeless objects attributes.now)
        (or_else (first_nameless objects (length arrows.now) equations.now) (first_apart arrows.now equations.now))) }
{
    if let Some(fault) = unknown_end(objects, arrows) {
        return Some(fault);
    }
    if let Some(fault) = unknown_holder(objects, attributes) {
        return Some(fault);
    }
    first_ill_formed(objects, arrows, equations)
}
