//! The two sides, glued: the classes of their parts, and the change that is made of these, or a clash.

ghost use Rattle.std.specs.Prelude.{◌≡◌, IfOk, [], length, map};
ghost use Rattle.rw_schema.specs.Presentation.{signature_of};
ghost use Rattle.rw_classes.specs.ClassLists.{AreClassesBy, first_lists, number_lists};
ghost use Rattle.rw_classes.specs.Clashes.{FirstOf};
ghost use Rattle.rw_glue.specs.inner.Changed.{IsMadeOf};
ghost use Rattle.rw_glue.specs.inner.Glued.{AreNamedClasses, IsChangeBy, IsGlued, IsSite};
ghost use Rattle.rw_glue.specs.inner.Sides.{AreSides};

use crate::GlueEnd;
use crate::clash::clash_end;
use crate::made::made;
use crate::names::{moved_lists, name_lists, placed_lists};
use crate::sides::Sides;
use rw_classes::{Classes, Merged, class_lists, first_clash, merge_each};
use rw_columns::Change;
use rw_delta::{Context, Probe};
use rw_schema::{OutOfMemory, Schema};
use rw_steps::Steps;
use std::alloc::Global;
use std::sync::ledger::Ledger;

/// The change that glues the two sides, or their first clash.
pub fn glued<P: Probe, L: Ledger>(
    alloc: Global,
    schema: &Schema,
    probe: &P,
    sides: &Sides<'_>,
    steps: &mut Steps<L>,
) -> Result<Change, GlueEnd>
    requires probe { P.signature probe.now ≡ signature_of schema.now }
    requires site { IsSite (signature_of schema.now) sides.now.rule.now sides.now.tuple.now (P.instance probe.now) sides.now.context.now }
    requires sides { AreSides (signature_of schema.now) (P.instance probe.now) sides.now.rule.now sides.now.values.now sides.now.context.now
        sides.now.images sides.now.left sides.now.right }
    ensures { IsGlued (signature_of schema.now) (P.instance probe.now) sides.now.rule.now sides.now.context.now sides.now.images sides.now.left sides.now.right result }
{
    let classes = class_lists(
        alloc,
        schema.objects(),
        &sides.left,
        &sides.right,
        &sides.images,
        sides.rule.r(),
    )?;
    compared(alloc, schema, probe, sides, classes.as_slice(), steps)
}

/// The change that glues the two sides, or their first clash, where these are the classes of their parts.
fn compared<P: Probe, L: Ledger>(
    alloc: Global,
    schema: &Schema,
    probe: &P,
    sides: &Sides<'_>,
    classes: &[Classes],
    steps: &mut Steps<L>,
) -> Result<Change, GlueEnd>
    requires probe { P.signature probe.now ≡ signature_of schema.now }
    requires site { IsSite (signature_of schema.now) sides.now.rule.now sides.now.tuple.now (P.instance probe.now) sides.now.context.now }
    requires sides { AreSides (signature_of schema.now) (P.instance probe.now) sides.now.rule.now sides.now.values.now sides.now.context.now
        sides.now.images sides.now.left sides.now.right }
    requires lists { length classes.now ≡ length schema.now.objects }
    requires classes { AreClassesBy (length schema.now.objects) sides.now.left sides.now.right sides.now.images sides.now.rule.now.r
        (number_lists classes.now) (first_lists classes.now) }
    ensures { IsGlued (signature_of schema.now) (P.instance probe.now) sides.now.rule.now sides.now.context.now sides.now.images sides.now.left sides.now.right result }
{
    let _arrows = schema.arrow_list();
    let attributes = schema.attribute_list();
    let merged = merge_each(alloc, attributes, &sides.left, &sides.right, classes)?;
    let context: &Context = sides.context;
    let next = context.next.as_slice();
    let names = name_lists(alloc, sides.rule, next, &sides.left, classes)?;
    told(
        alloc,
        schema,
        probe,
        sides,
        classes,
        merged.as_slice(),
        names.as_slice(),
        steps,
    )
}

/// The change that glues the two sides, or their first clash, where these are the classes of their parts with their names
/// and atoms.
fn told<P: Probe, L: Ledger>(
    alloc: Global,
    schema: &Schema,
    probe: &P,
    sides: &Sides<'_>,
    classes: &[Classes],
    merged: &[Merged],
    names: &[Vec<u32>],
    steps: &mut Steps<L>,
) -> Result<Change, GlueEnd>
    requires probe { P.signature probe.now ≡ signature_of schema.now }
    requires site { IsSite (signature_of schema.now) sides.now.rule.now sides.now.tuple.now (P.instance probe.now) sides.now.context.now }
    requires sides { AreSides (signature_of schema.now) (P.instance probe.now) sides.now.rule.now sides.now.values.now sides.now.context.now
        sides.now.images sides.now.left sides.now.right }
    requires are { AreNamedClasses (signature_of schema.now) sides.now.rule.now sides.now.context.now sides.now.images sides.now.left sides.now.right
        (number_lists classes.now) (first_lists classes.now) merged.now (map (λ list. list.items) names.now) }
    ensures { IsGlued (signature_of schema.now) (P.instance probe.now) sides.now.rule.now sides.now.context.now sides.now.images sides.now.left sides.now.right result }
{
    match first_clash(schema.attribute_list(), merged) {
        Some(clash) => Err(clash_end(alloc, clash, &sides.left, &sides.right, names)?),
        None => Ok(change_of(alloc, schema, probe, sides, classes, merged, names, steps)?),
    }
}

/// The change that glues the two sides, where no atoms clash.
fn change_of<P: Probe, L: Ledger>(
    alloc: Global,
    schema: &Schema,
    probe: &P,
    sides: &Sides<'_>,
    classes: &[Classes],
    merged: &[Merged],
    names: &[Vec<u32>],
    steps: &mut Steps<L>,
) -> Result<Change, OutOfMemory>
    requires probe { P.signature probe.now ≡ signature_of schema.now }
    requires site { IsSite (signature_of schema.now) sides.now.rule.now sides.now.tuple.now (P.instance probe.now) sides.now.context.now }
    requires sides { AreSides (signature_of schema.now) (P.instance probe.now) sides.now.rule.now sides.now.values.now sides.now.context.now
        sides.now.images sides.now.left sides.now.right }
    requires are { AreNamedClasses (signature_of schema.now) sides.now.rule.now sides.now.context.now sides.now.images sides.now.left sides.now.right
        (number_lists classes.now) (first_lists classes.now) merged.now (map (λ list. list.items) names.now) }
    ensures { IfOk result (IsChangeBy (signature_of schema.now) (P.instance probe.now) sides.now.rule.now sides.now.context.now sides.now.left sides.now.right
        (number_lists classes.now) merged.now (map (λ list. list.items) names.now)) }
{
    let _arrows = schema.arrow_list();
    let moved = moved_lists(alloc, &sides.left, classes, names)?;
    let placed = placed_lists(alloc, &sides.left, classes, names)?;
    made(
        alloc,
        schema,
        probe,
        sides,
        classes,
        merged,
        moved.as_slice(),
        placed.as_slice(),
        steps,
    )
}
