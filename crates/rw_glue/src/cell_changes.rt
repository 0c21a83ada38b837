//! The cells that touched names get.

ghost use Rattle.std.specs.Prelude.{◌≡◌, ◌<◌, ◌≤◌, ◌++◌, ◌∷◌, ℕ, All, IfOk, OnOk, Some, [], cond, length, map, slice_get, true};
ghost use Rattle.std.specs.Option.{option_map};
ghost use Rattle.rw_schema.specs.declared.signature.AttrEnds.{AttrEnds};
ghost use Rattle.rw_schema.specs.Atoms.{is_same_atom};
ghost use Rattle.rw_schema.specs.Presentation.{ends_of_attribute};
ghost use Rattle.rw_schema.specs.RowLists.{list_at};
ghost use Rattle.rw_schema.specs.Signature.{holder_of};
ghost use Rattle.rw_spec.specs.Ascending.{ascends};
ghost use Rattle.rw_spec.specs.Instance.{Has};
ghost use Rattle.rw_classes.specs.ClassLists.{number_lists};
ghost use Rattle.rw_columns.specs.Changes.{entry_names};
ghost use Rattle.rw_classes.specs.Merging.{cell_at};
ghost use Rattle.rw_columns.specs.inner.Filled.{AreAll};
ghost use Rattle.std.specs.Option.{option_eq};
ghost use Rattle.rw_delta.specs.ContextLists.{is_in};
ghost use Rattle.rw_glue.specs.inner.Changed.{AreCellChanges, AreCellsBy, CanCompare, firsts_in, touched_cell};

use crate::cells::copy_of;
use crate::lists::{add_list, list_of};
use rw_classes::{Classes, Merged, numbers_at};
use rw_columns::place_of_entry;
use rw_delta::Probe;
use rw_schema::{Atom, AttrDef, AttrId, OutOfMemory, Rows};
use rw_steps::Steps;
use std::alloc::Global;
use std::sync::ledger::Ledger;

/// What the classes of an object's parts have in the cells of an attribute. The touched names come first.
#[derive(Drop)]
pub struct ClassCells<'a> {
    /// Of each class its first part that has an atom, if there is one.
    firsts: &'a [Option<u32>],

    /// Of each part its class.
    numbers: &'a [u32],

    /// The cells of the touched names.
    left: &'a [Option<Atom>],

    /// The cells of the parts of the right side.
    right: &'a [Option<Atom>],
}

/// Of each attribute the names that stay and get another cell, each with that cell.
pub fn cell_lists<P: Probe, L: Ledger>(
    alloc: Global,
    attributes: &[AttrDef],
    probe: &P,
    left: &Rows,
    right: &Rows,
    classes: &[Classes],
    merged: &[Merged],
    moved: &[Vec<(u32, u32)>],
    steps: &mut Steps<L>,
) -> Result<Vec<Vec<(u32, Option<Atom>)>>, OutOfMemory>
    requires few { length attributes.now ≤ 256 }
    requires known { map ends_of_attribute attributes.now ≡ (P.signature probe.now).attributes }
    requires merged { length merged.now ≡ length attributes.now }
    requires left { length attributes.now ≤ length left.now.cells }
    requires right { length attributes.now ≤ length right.now.cells }
    requires holders { (c : ℕ) (ends : AttrEnds) → slice_get (P.signature probe.now).attributes c ≡ Some ends
        → CanCompare (P.instance probe.now) left.now.names (number_lists classes.now) (map (λ list. list.items) moved.now) ends.object.0 }
    ensures { IfOk result (λ cells. AreAll [] (AreCellChanges (P.signature probe.now) (P.instance probe.now) left.now right.now (number_lists classes.now) merged.now (map (λ list. list.items) moved.now))
        (length attributes.now) (map (λ list. list.items) cells.items)) }
{
    let mut lists = Vec::new(alloc);
    for (place, attribute) in attributes.iter().enumerate() {
        let attr = AttrId(place as u16);
        let cells = ClassCells {
            firsts: firsts_of(&merged[place]),
            numbers: numbers_at(classes, attribute.object),
            left: left.cells(attr),
            right: right.cells(attr),
        };
        let changes = cell_changes(
            alloc,
            probe,
            attr,
            left.names(attribute.object),
            list_of(moved, attribute.object.0 as usize),
            &cells,
            steps,
        )?;
        add_list(&mut lists, changes)?;
    }
    Ok(lists)
}

/// Of each class its first part that has an atom; nothing where classes clash.
fn firsts_of(merged: &Merged) -> &[Option<u32>]
    ensures { result.now ≡ firsts_in merged.now }
{
    match merged {
        Merged::Firsts(firsts) => firsts.as_slice(),
        Merged::Differ(_) => &[],
    }
}

/// The touched names that stay and get another cell, each with that cell.
fn cell_changes<P: Probe, L: Ledger>(
    alloc: Global,
    probe: &P,
    attr: AttrId,
    touched: &[u32],
    moved: &[(u32, u32)],
    cells: &ClassCells<'_>,
    steps: &mut Steps<L>,
) -> Result<Vec<(u32, Option<Atom>)>, OutOfMemory>
    requires attribute { attr.0 < length (P.signature probe.now).attributes }
    requires names { All (Has (P.instance probe.now) (holder_of (P.signature probe.now) attr.0)) touched.now }
    requires ascend { ascends (entry_names moved.now) ≡ true }
    requires each { length touched.now ≤ length cells.now.numbers.now }
    ensures { IfOk result (λ changes. AreCellsBy ((P.instance probe.now).cell attr.0) cells.now.firsts.now cells.now.numbers.now (cells.now.left.now ++ cells.now.right.now)
        touched.now moved.now changes.items) }
{
    let mut changes = Vec::new(alloc);
    for (place, name) in touched.iter().enumerate() {
        if !is_moved(moved, *name) {
            let old = probe.cell(attr, *name, steps);
            add_change(alloc, &mut changes, *name, old, class_cell(cells, place))?;
        }
    }
    Ok(changes)
}

/// Puts the name with its new cell behind the others, where it is another cell than before.
fn add_change(
    alloc: Global,
    changes: &mut Vec<(u32, Option<Atom>)>,
    name: u32,
    old: Option<&Atom>,
    new: Option<&Atom>,
) -> Result<(), OutOfMemory>
    ensures { OnOk result (changes.new.items ≡ changes.old.items
        ++ cond (option_eq is_same_atom (option_map (λ atom. atom.now) old.entry) (option_map (λ atom. atom.now) new.entry)) [] ((name, option_map (λ atom. atom.now) new.entry) ∷ [])) }
{
    if !are_same(old, new) {
        changes.push((name, copy_of(alloc, new)?))?;
    }
    Ok(())
}

/// Whether the name gets another name.
fn is_moved(moved: &[(u32, u32)], name: u32) -> bool
    requires { ascends (entry_names moved.now) ≡ true }
    ensures { result ≡ is_in (entry_names moved.now) name }
{
    place_of_entry(moved, name).is_some()
}

/// The cell of the class of the part at the place.
fn class_cell<'a>(cells: &ClassCells<'a>, place: usize) -> Option<&'a Atom>
    requires { place < length cells.now.numbers.now }
    ensures { option_map (λ atom. atom.now) result ≡ touched_cell cells.now.firsts.now cells.now.numbers.now (cells.now.left.now ++ cells.now.right.now) place }
{
    let class = cells.numbers[place] as usize;
    let first = (*cells.firsts.get(class)?)?;
    atom_at(cells.left, cells.right, first)
}

/// The atom of the part at the place, if it has one. The left cells come first.
pub fn atom_at<'a>(
    left: &'a [Option<Atom>],
    right: &'a [Option<Atom>],
    place: u32,
) -> Option<&'a Atom>
    ensures { option_map (λ atom. atom.now) result ≡ cell_at (left.now ++ right.now) place }
{
    let place = place as usize;
    if place < left.len() {
        left[place].as_ref()
    } else {
        right.get(place - left.len())?.as_ref()
    }
}

/// Whether both are nothing, or one atom.
fn are_same(old: Option<&Atom>, new: Option<&Atom>) -> bool
    ensures { result ≡ option_eq is_same_atom (option_map (λ atom. atom.now) old.entry) (option_map (λ atom. atom.now) new.entry) }
{
    match (old, new) {
        (Some(one), Some(other)) => one.is(other),
        (None, None) => true,
        (Some(_), None) => false,
        (None, Some(_)) => false,
    }
}
