//! The cells of classes, and the fault that tells of a clash among them.

ghost use Rattle.std.specs.Prelude.{◌≡◌, ◌<◌, ◌≤◌, ◌++◌, ℕ, IfOk, IsSome, List, Option, Some, length, map, slice_get};
ghost use Rattle.std.specs.Option.{option_map};
ghost use Rattle.rw_schema.specs.declared.signature.AttrEnds.{AttrEnds};
ghost use Rattle.rw_schema.specs.First.{map_in};
ghost use Rattle.rw_schema.specs.Presentation.{ends_of_attribute};
ghost use Rattle.rw_schema.specs.RowLists.{list_at};
ghost use Rattle.rw_limits.specs.inner.ClassTables.{IsFaultOf, first_cell, merged_cells};
ghost use Rattle.rw_classes.specs.Clashes.{CanMerge, MergesAt, MergesEach, FirstOf, both_cells};
ghost use Rattle.rw_classes.specs.inner.Clashes.{clash_at, comes_earlier, lesser};
ghost use Rattle.rw_classes.specs.Merging.{cell_at};
ghost use Rattle.rw_classes.specs.ClassLists.{number_lists, first_lists};

use crate::GlueFault;
use rw_classes::{ClashAt, Merged};
use rw_schema::{Atom, AttrId, OutOfMemory, Rows};
use std::alloc::Global;

/// The fault that tells of the clash.
pub fn fault_of(
    alloc: Global,
    clash: ClashAt,
    left: &Rows,
    right: &Rows,
) -> Result<GlueFault, OutOfMemory>
    requires left { clash.attr.0 < length left.now.cells }
    requires right { clash.attr.0 < length right.now.cells }
    requires first { IsSome (cell_at (both_cells left.now right.now clash.attr.0) clash.difference.first) }
    requires second { IsSome (cell_at (both_cells left.now right.now clash.attr.0) clash.difference.second) }
    ensures { IfOk result (IsFaultOf clash (cell_at (both_cells left.now right.now clash.attr.0))) }
{
    let left_cells = left.cells(clash.attr);
    let right_cells = right.cells(clash.attr);
    let first = atom_at(left_cells, right_cells, clash.difference.first).unwrap();
    let second = atom_at(left_cells, right_cells, clash.difference.second).unwrap();
    Ok(GlueFault::Clash {
        object: clash.object,
        part: clash.difference.class,
        attr: clash.attr,
        first: first.copy(alloc)?,
        second: second.copy(alloc)?,
    })
}

/// The atom of the part at the place, if it has one. The left cells come first.
fn atom_at<'a>(left: &'a [Option<Atom>], right: &'a [Option<Atom>], place: u32) -> Option<&'a Atom>
    ensures { option_map (λ atom. atom.now) result ≡ cell_at (left.now ++ right.now) place }
{
    let place = place as usize;
    if place < left.len() {
        left[place].as_ref()
    } else {
        right.get(place - left.len())?.as_ref()
    }
}

/// Of each attribute the cells of the classes of its object.
pub fn class_cells(
    alloc: Global,
    merged: &[Merged],
    left: &Rows,
    right: &Rows,
) -> Result<Vec<Vec<Option<Atom>>>, OutOfMemory>
    requires few { length merged.now ≤ 256 }
    requires left { length merged.now ≤ length left.now.cells }
    requires right { length merged.now ≤ length right.now.cells }
    ensures { IfOk result (λ cells. map (λ list. list.items) cells.items ≡ map_in (λ c each. merged_cells (both_cells left.now right.now c) each) 0 merged.now) }
{
    let mut cells = Vec::new(alloc);
    for (place, each) in merged.iter().enumerate() {
        let attribute = AttrId(place as u16);
        cells.push(cells_of(alloc, each, left.cells(attribute), right.cells(attribute))?)?;
    }
    Ok(cells)
}

/// The cells of the classes in an attribute; none where they clash.
fn cells_of(
    alloc: Global,
    merged: &Merged,
    left: &[Option<Atom>],
    right: &[Option<Atom>],
) -> Result<Vec<Option<Atom>>, OutOfMemory>
    ensures { IfOk result (λ cells. cells.items ≡ merged_cells (left.now ++ right.now) merged.now) }
{
    match merged {
        Merged::Firsts(firsts) => cells_at(alloc, firsts.as_slice(), left, right),
        Merged::Differ(_) => Ok(Vec::new(alloc)),
    }
}

/// The cells of classes, given by the places of their first parts that have atoms.
fn cells_at(
    alloc: Global,
    firsts: &[Option<u32>],
    left: &[Option<Atom>],
    right: &[Option<Atom>],
) -> Result<Vec<Option<Atom>>, OutOfMemory>
    ensures { IfOk result (λ cells. cells.items ≡ map (first_cell (left.now ++ right.now)) firsts.now) }
{
    let mut cells = Vec::new(alloc);
    for first in firsts {
        cells.push(cell_of(alloc, *first, left, right)?)?;
    }
    Ok(cells)
}

/// The cell of a class, given by the place of its first part that has an atom.
fn cell_of(
    alloc: Global,
    first: Option<u32>,
    left: &[Option<Atom>],
    right: &[Option<Atom>],
) -> Result<Option<Atom>, OutOfMemory>
    ensures { IfOk result (λ cell. cell ≡ first_cell (left.now ++ right.now) first) }
{
    let Some(place) = first else {
        return Ok(None);
    };
    match atom_at(left, right, place) {
        Some(atom) => Ok(Some(atom.copy(alloc)?)),
        None => Ok(None),
    }
}
