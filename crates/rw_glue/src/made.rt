//! The change that is made of the names that get other names and the names of the right side.

ghost use Rattle.std.specs.Prelude.{◌≡◌, IfOk, [], length, map};
ghost use Rattle.rw_schema.specs.Presentation.{signature_of};
ghost use Rattle.rw_classes.specs.ClassLists.{number_lists};
ghost use Rattle.rw_glue.specs.inner.Changed.{AreAdded, CanAdd, CanChange, IsMadeOf};

use crate::added::{new_cell_lists, new_name_lists, new_row_lists, next_list};
use crate::cell_changes::cell_lists;
use crate::removed::removed_lists;
use crate::row_changes::row_lists;
use crate::sides::Sides;
use rw_classes::{Classes, Merged};
use rw_columns::{Added, Change};
use rw_delta::{Context, Probe};
use rw_rule::Rule;
use rw_schema::{OutOfMemory, Rows, Schema};
use rw_steps::Steps;
use std::alloc::Global;
use std::sync::ledger::Ledger;

/// The change that gives names other names and has the new parts of the right side come.
pub fn made<P: Probe, L: Ledger>(
    alloc: Global,
    schema: &Schema,
    probe: &P,
    sides: &Sides<'_>,
    classes: &[Classes],
    merged: &[Merged],
    moved: &[Vec<(u32, u32)>],
    placed: &[Vec<u32>],
    steps: &mut Steps<L>,
) -> Result<Change, OutOfMemory>
    requires probe { P.signature probe.now ≡ signature_of schema.now }
    requires can { CanChange (P.signature probe.now) (P.instance probe.now) sides.now.rule.now sides.now.context.now sides.now.left sides.now.right
        (number_lists classes.now) merged.now (map (λ list. list.items) moved.now) (map (λ list. list.items) placed.now) }
    ensures { IfOk result (IsMadeOf (P.signature probe.now) (P.instance probe.now) sides.now.rule.now sides.now.context.now sides.now.left sides.now.right
        (number_lists classes.now) merged.now (map (λ list. list.items) moved.now) (map (λ list. list.items) placed.now)) }
{
    let context: &Context = sides.context;
    let removed = removed_lists(alloc, context.removed.as_slice(), moved)?;
    let arrows = schema.arrow_list();
    let rows = row_lists(alloc, arrows, probe, removed.as_slice(), moved, steps)?;
    let cells = cell_lists(
        alloc,
        schema.attribute_list(),
        probe,
        &sides.left,
        &sides.right,
        classes,
        merged,
        moved,
        steps,
    )?;
    let next = context.next.as_slice();
    let added = added_of(alloc, schema, sides.rule, next, &sides.right, placed)?;
    Ok(Change {
        removed,
        added,
        rows,
        cells,
    })
}

/// The names that come, with their rows, their cells and the next names afterwards.
fn added_of(
    alloc: Global,
    schema: &Schema,
    rule: &Rule,
    next: &[u32],
    right: &Rows,
    placed: &[Vec<u32>],
) -> Result<Added, OutOfMemory>
    requires can { CanAdd (signature_of schema.now) rule.now next.now right.now (map (λ list. list.items) placed.now) }
    ensures { IfOk result (AreAdded (signature_of schema.now) rule.now next.now right.now (map (λ list. list.items) placed.now)) }
{
    let arrows = schema.arrow_list();
    let names = new_name_lists(alloc, rule, placed)?;
    let rows = new_row_lists(alloc, arrows, rule, placed)?;
    let cells = new_cell_lists(alloc, schema.attribute_list(), rule, right)?;
    let next = next_list(alloc, rule, next)?;
    Ok(Added {
        names,
        rows,
        cells,
        next,
    })
}
