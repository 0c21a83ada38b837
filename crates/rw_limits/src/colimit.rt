//! Pushouts.

ghost use Rattle.std.specs.Prelude.{◌≡◌, ◌<◌, ◌^◌, ℕ, IfOk};
ghost use Rattle.rw_schema.specs.Presentation.{signature_of};
ghost use Rattle.rw_spec.specs.Tabled.{IsOver, instance_of_table};
ghost use Rattle.rw_map.specs.Homs.{IsHom};
ghost use Rattle.rw_limits.specs.inner.ClassTables.{CanAssemble, class_table};
ghost use Rattle.rw_limits.specs.Pushouts.{PushesOut, frame_of};
ghost use Rattle.rw_classes.specs.Places.{count_at};
ghost use Rattle.rw_limits.specs.inner.Spans.{left_classes, right_classes};
ghost use Rattle.rw_classes.specs.ClassLists.{number_lists, first_lists};
ghost use Rattle.rw_limits.specs.declared.colimit.GlueFault.TheVariants as faults;

use crate::class_cells::{class_cells, fault_of};
use crate::class_names::{class_counts, left_lists, name_lists, right_lists};
use crate::class_rows::class_rows;
use rw_classes::{Classes, Merged, class_lists, first_clash, merge_each};
use rw_schema::{Atom, AttrId, ObjectId, OutOfMemory, PartMap, Rows, Schema};
use rw_table::Table;
use std::alloc::{AllocError, AllocFailed, Global};

/// A pushout with its two legs. Its parts are the classes of the parts of both sides, numbered from 0: first those with
/// a left part, by their least left part, then the others, by their right part. A class's cell is the atom that its parts
/// have, else blank; `left` and `right` send each part to its class.
#[derive(Drop)]
pub struct PushoutResult {
    pub table: Table,
    pub left: PartMap,
    pub right: PartMap,
}

/// Why there is no pushout.
#[derive(Drop)]
pub enum GlueFault {
    /// Two parts of one class have different atoms: the least object, class and attribute. `first` is the atom of the
    /// first part that has one, left parts before right ones, and `second` the first later one that differs.
    Clash {
        object: ObjectId,
        part: u32,
        attr: AttrId,
        first: Atom,
        second: Atom,
    },
    /// No memory was there.
    OutOfMemory,
}

impl From<OutOfMemory> for GlueFault {
    ghost from_gives = { λ _ fault. fault ≡ faults.OutOfMemory };

    fn from(_error: OutOfMemory) -> GlueFault {
        GlueFault::OutOfMemory
    }
}

impl From<AllocError> for GlueFault {
    ghost from_gives = { λ _ fault. fault ≡ faults.OutOfMemory };

    fn from(_error: AllocError) -> GlueFault {
        GlueFault::OutOfMemory
    }
}

impl<T: Drop> From<AllocFailed<T>> for GlueFault {
    ghost from_gives = { λ _ fault. fault ≡ faults.OutOfMemory };

    fn from(_failed: AllocFailed<T>) -> GlueFault {
        GlueFault::OutOfMemory
    }
}

/// The pushout of two homomorphisms out of one apex. The time is near linear in the parts.
///
/// Mac Lane, "Categories for the Working Mathematician" (1971), has pushouts and that those of functors into sets are
/// taken object by object; the classes are found as Tarjan, "Efficiency of a good but not linear set union algorithm"
/// (1975), finds them.
pub fn pushout(
    alloc: Global,
    schema: &Schema,
    apex: &Table,
    left: &Table,
    right: &Table,
    f: &PartMap,
    g: &PartMap,
) -> Result<PushoutResult, GlueFault>
    requires apex { IsOver schema.now apex.now }
    requires left { IsOver schema.now left.now }
    requires right { IsOver schema.now right.now }
    requires f { IsHom (signature_of schema.now) (instance_of_table apex.now) (instance_of_table left.now) f.now }
    requires g { IsHom (signature_of schema.now) (instance_of_table apex.now) (instance_of_table right.now) g.now }
    requires few { (object : ℕ) → object < (signature_of schema.now).objects → count_at (frame_of apex.now left.now right.now f.now g.now) object < 2 ^ 32 }
    ensures { PushesOut (signature_of schema.now) (frame_of apex.now left.now right.now f.now g.now) result }
{
    // That the apex is an instance is known by its lists.
    let _apex = apex.rows();
    let left = left.rows();
    let right = right.rows();
    let attributes = schema.attribute_list();
    let classes = class_lists(alloc, schema.objects(), left, right, f, g)?;
    let merged = merge_each(alloc, attributes, left, right, classes.as_slice())?;
    if let Some(clash) = first_clash(attributes, merged.as_slice()) {
        return Err(fault_of(alloc, clash, left, right)?);
    }
    let pushout = glued(
        alloc,
        schema,
        left,
        right,
        classes.as_slice(),
        merged.as_slice(),
    )?;
    Ok(pushout)
}

/// The instance of the classes, with the class of each part.
fn glued(
    alloc: Global,
    schema: &Schema,
    left: &Rows,
    right: &Rows,
    classes: &[Classes],
    merged: &[Merged],
) -> Result<PushoutResult, OutOfMemory>
    requires { CanAssemble (signature_of schema.now) left.now right.now classes.now merged.now }
    ensures table { IfOk result (λ glued. glued.table ≡ record { signature = signature_of schema.now; rows = class_table (signature_of schema.now) left.now right.now (number_lists classes.now) (first_lists classes.now) merged.now }) }
    ensures left { IfOk result (λ glued. glued.left ≡ left_classes left.now (number_lists classes.now)) }
    ensures right { IfOk result (λ glued. glued.right ≡ right_classes left.now (number_lists classes.now)) }
{
    let rows = instance_lists(alloc, schema, left, right, classes, merged)?;
    let table = Table::of_instance(alloc, schema, rows)?;
    let left_images = left_lists(alloc, left, classes)?;
    let right_images = right_lists(alloc, left, classes)?;
    Ok(PushoutResult {
        table,
        left: PartMap::from_lists(left_images),
        right: PartMap::from_lists(right_images),
    })
}

/// The lists of the instance of the classes.
fn instance_lists(
    alloc: Global,
    schema: &Schema,
    left: &Rows,
    right: &Rows,
    classes: &[Classes],
    merged: &[Merged],
) -> Result<Rows, OutOfMemory>
    requires { CanAssemble (signature_of schema.now) left.now right.now classes.now merged.now }
    ensures { IfOk result (λ rows. rows ≡ class_table (signature_of schema.now) left.now right.now (number_lists classes.now) (first_lists classes.now) merged.now) }
{
    let names = name_lists(alloc, classes)?;
    let arrows = class_rows(alloc, schema.arrow_list(), left, right, classes)?;
    let cells = class_cells(alloc, merged, left, right)?;
    let next = class_counts(alloc, classes)?;
    Ok(Rows::from_lists(names, arrows, cells, next))
}
