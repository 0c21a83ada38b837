//! What is to be glued: the touched names of a context and the parts of a right side.

ghost use Rattle.std.specs.Prelude.{◌≡◌, IfOk, Some, [], length, map};
ghost use Rattle.std.specs.List.{range_with_len};
ghost use Rattle.rw_schema.specs.Presentation.{signature_of};
ghost use Rattle.rw_schema.specs.Signature.{IsCategory};
ghost use Rattle.rw_rule.specs.RuleLists.{RuleLists};
ghost use Rattle.rw_columns.specs.inner.Filled.{AreAll};
ghost use Rattle.rw_glue.specs.inner.Sides.{AreHeld, AreSet, AreSides, CanTouch, IsTouched};

use crate::cells::{held_lists, set_lists};
use crate::kept::{kept_lists, touched_lists};
use crate::set_values::SetValues;
use rw_delta::{Context, Probe};
use rw_pattern::Tuple;
use rw_rule::Rule;
use rw_schema::{OutOfMemory, PartMap, Rows, Schema, numbers_below};
use rw_steps::Steps;
use std::alloc::Global;
use std::sync::ledger::Ledger;

/// A rule at a match with its context and the values of its sets, and the two sides that are glued: the touched names of
/// the context, and the parts of the right side.
#[derive(Drop)]
pub struct Sides<'a> {
    pub rule: &'a Rule,
    pub tuple: &'a Tuple,
    pub context: &'a Context,
    pub values: &'a SetValues,

    /// Of each object the names of its kept parts.
    pub images: PartMap,

    /// The touched names, with their cells in the context.
    pub left: Rows,

    /// The parts of the right side, with the cells that are set.
    pub right: Rows,
}

/// The two sides, and the names of the kept parts.
pub fn sides_of<'a, P: Probe, L: Ledger>(
    alloc: Global,
    schema: &Schema,
    probe: &P,
    rule: &'a Rule,
    tuple: &'a Tuple,
    context: &'a Context,
    values: &'a SetValues,
    steps: &mut Steps<L>,
) -> Result<Sides<'a>, OutOfMemory>
    requires schema { P.signature probe.now ≡ signature_of schema.now }
    requires touch { CanTouch (signature_of schema.now) (P.instance probe.now) rule.now context.now }
    requires values { length values.now ≡ length rule.now.sets }
    ensures given { IfOk result (λ sides. (sides.rule.now ≡ rule.now) × (sides.tuple.now ≡ tuple.now) × (sides.context.now ≡ context.now) × (sides.values.now ≡ values.now)) }
    ensures sides { IfOk result (λ sides. AreSides (signature_of schema.now) (P.instance probe.now) rule.now values.now context.now sides.images sides.left sides.right) }
{
    let images = kept_lists(alloc, context.of_keep.as_slice())?;
    let left = left_rows(alloc, schema, probe, context, &images, steps)?;
    let right = right_rows(alloc, schema, rule, values)?;
    Ok(Sides {
        rule,
        tuple,
        context,
        values,
        images,
        left,
        right,
    })
}

/// The touched names, with their cells in the context.
fn left_rows<P: Probe, L: Ledger>(
    alloc: Global,
    schema: &Schema,
    probe: &P,
    context: &Context,
    images: &PartMap,
    steps: &mut Steps<L>,
) -> Result<Rows, OutOfMemory>
    requires schema { P.signature probe.now ≡ signature_of schema.now }
    requires touch { (rule : RuleLists) × CanTouch (signature_of schema.now) (P.instance probe.now) rule context.now }
    requires images { map (map (λ name. Some name)) images.now ≡ context.now.of_keep }
    ensures touched { IfOk result (λ rows. AreAll [] (IsTouched images.now) (length schema.now.objects) rows.names) }
    ensures held { IfOk result (λ rows. AreAll [] (AreHeld (signature_of schema.now) (P.instance probe.now) context.now.blank rows.names) (length schema.now.attributes) rows.cells) }
{
    let touched = touched_lists(alloc, images, schema.objects())?;
    let cells = held_lists(
        alloc,
        schema.attribute_list(),
        probe,
        context.blank.as_slice(),
        touched.as_slice(),
        steps,
    )?;
    Ok(Rows::from_lists(touched, Vec::new(alloc), cells, Vec::new(alloc)))
}

/// The parts of the right side, with the cells that are set.
fn right_rows(
    alloc: Global,
    schema: &Schema,
    rule: &Rule,
    values: &SetValues,
) -> Result<Rows, OutOfMemory>
    requires category { IsCategory (signature_of schema.now) }
    requires sizes { length rule.now.right.sizes ≡ length schema.now.objects }
    requires values { length values.now ≡ length rule.now.sets }
    ensures parts { IfOk result (λ rows. rows.names ≡ map (range_with_len 0) rule.now.right.sizes) }
    ensures set { IfOk result (λ rows. AreAll [] (AreSet (signature_of schema.now).attributes rule.now values.now) (length schema.now.attributes) rows.cells) }
{
    let names = part_lists(alloc, rule.right().sizes())?;
    let cells = set_lists(alloc, schema.attribute_list(), rule, values)?;
    Ok(Rows::from_lists(names, Vec::new(alloc), cells, Vec::new(alloc)))
}

/// Of each object its parts.
fn part_lists(alloc: Global, sizes: &[u32]) -> Result<Vec<Vec<u32>>, OutOfMemory>
    ensures { IfOk result (λ lists. map (λ list. list.items) lists.items ≡ map (range_with_len 0) sizes.now) }
{
    let mut lists = Vec::new(alloc);
    for size in sizes {
        lists.push(numbers_below(alloc, *size)?)?;
    }
    Ok(lists)
}
