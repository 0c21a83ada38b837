//! The cells of touched names in the context, and those that the right side demands.

ghost use Rattle.std.specs.Prelude.{◌≡◌, ◌<◌, ◌≤◌, All, IfOk, ℕ, Some, [], length, map, position, slice_get};
ghost use Rattle.std.specs.List.{range_with_len};
ghost use Rattle.std.specs.Option.{option_map};
ghost use Rattle.rw_schema.specs.declared.signature.AttrEnds.{AttrEnds};
ghost use Rattle.rw_schema.specs.Presentation.{ends_of_attribute, signature_of};
ghost use Rattle.rw_schema.specs.RowLists.{list_at};
ghost use Rattle.rw_schema.specs.Signature.{holder_of};
ghost use Rattle.rw_spec.specs.Instance.{Has};
ghost use Rattle.rw_pattern.specs.PatternLists.{size_of};
ghost use Rattle.rw_rule.specs.Sets.{is_on_cell};
ghost use Rattle.rw_columns.specs.inner.Filled.{AreAll};
ghost use Rattle.rw_glue.specs.inner.Sides.{AreHeld, AreSet, held_cell, set_atom};

use crate::lists::{add_list, list_of};
use crate::set_values::SetValues;
use rw_delta::Probe;
use rw_rule::{Rule, SetCell};
use rw_schema::{Atom, AttrDef, AttrId, ObjectId, OutOfMemory, has_number};
use rw_steps::Steps;
use std::alloc::Global;
use std::sync::ledger::Ledger;

/// Of each attribute the cells that the touched names have in the context.
pub fn held_lists<P: Probe, L: Ledger>(
    alloc: Global,
    attributes: &[AttrDef],
    probe: &P,
    blank: &[Vec<u32>],
    touched: &[Vec<u32>],
    steps: &mut Steps<L>,
) -> Result<Vec<Vec<Option<Atom>>>, OutOfMemory>
    requires few { length attributes.now ≤ 256 }
    requires known { map ends_of_attribute attributes.now ≡ (P.signature probe.now).attributes }
    requires blank { length blank.now ≡ length attributes.now }
    requires touched { (c : ℕ) (ends : AttrEnds) → slice_get (P.signature probe.now).attributes c ≡ Some ends
        → (ends.object.0 < length touched.now) × All (Has (P.instance probe.now) ends.object.0) (list_at (map (λ list. list.items) touched.now) ends.object.0) }
    ensures { IfOk result (λ cells. AreAll [] (AreHeld (P.signature probe.now) (P.instance probe.now) (map (λ list. list.items) blank.now) (map (λ list. list.items) touched.now))
        (length attributes.now) (map (λ list. list.items) cells.items)) }
{
    let mut cells = Vec::new(alloc);
    for (place, attribute) in attributes.iter().enumerate() {
        let names = list_of(touched, attribute.object.0 as usize);
        let held = held_cells(
            alloc,
            probe,
            AttrId(place as u16),
            list_of(blank, place),
            names,
            steps,
        )?;
        add_list(&mut cells, held)?;
    }
    Ok(cells)
}

/// The cells of the names in the context, which are blank at the given names.
fn held_cells<P: Probe, L: Ledger>(
    alloc: Global,
    probe: &P,
    attr: AttrId,
    blank: &[u32],
    names: &[u32],
    steps: &mut Steps<L>,
) -> Result<Vec<Option<Atom>>, OutOfMemory>
    requires attribute { attr.0 < length (P.signature probe.now).attributes }
    requires names { All (Has (P.instance probe.now) (holder_of (P.signature probe.now) attr.0)) names.now }
    ensures { IfOk result (λ cells. cells.items ≡ map (held_cell (P.instance probe.now) blank.now attr.0) names.now) }
{
    let mut cells = Vec::new(alloc);
    for name in names {
        cells.push(held(alloc, probe, attr, blank, *name, steps)?)?;
    }
    Ok(cells)
}

/// The cell of the name in the context.
fn held<P: Probe, L: Ledger>(
    alloc: Global,
    probe: &P,
    attr: AttrId,
    blank: &[u32],
    name: u32,
    steps: &mut Steps<L>,
) -> Result<Option<Atom>, OutOfMemory>
    requires attribute { attr.0 < length (P.signature probe.now).attributes }
    requires name { Has (P.instance probe.now) (holder_of (P.signature probe.now) attr.0) name }
    ensures { IfOk result (λ cell. cell ≡ held_cell (P.instance probe.now) blank.now attr.0 name) }
{
    if has_number(blank, name) {
        return Ok(None);
    }
    copy_of(alloc, probe.cell(attr, name, steps))
}

/// The atom, in memory of its own.
pub fn copy_of(alloc: Global, atom: Option<&Atom>) -> Result<Option<Atom>, OutOfMemory>
    ensures { IfOk result (λ cell. cell ≡ option_map (λ atom. atom.now) atom.entry) }
{
    match atom {
        Some(atom) => Ok(Some(atom.copy(alloc)?)),
        None => Ok(None),
    }
}

/// Of each attribute the cells that the parts of the right side have.
pub fn set_lists(
    alloc: Global,
    attributes: &[AttrDef],
    rule: &Rule,
    values: &SetValues,
) -> Result<Vec<Vec<Option<Atom>>>, OutOfMemory>
    requires few { length attributes.now ≤ 256 }
    requires sizes { (c : ℕ) (ends : AttrEnds) → slice_get (map ends_of_attribute attributes.now) c ≡ Some ends → ends.object.0 < length rule.now.right.sizes }
    requires values { length values.now ≡ length rule.now.sets }
    ensures { IfOk result (λ cells. AreAll [] (AreSet (map ends_of_attribute attributes.now) rule.now values.now) (length attributes.now) (map (λ list. list.items) cells.items)) }
{
    let mut cells = Vec::new(alloc);
    for (place, attribute) in attributes.iter().enumerate() {
        let size = rule.right().size(attribute.object);
        add_list(
            &mut cells,
            set_cells(alloc, rule, values, AttrId(place as u16), size)?,
        )?;
    }
    Ok(cells)
}

/// The cells of the first parts of the right side.
fn set_cells(
    alloc: Global,
    rule: &Rule,
    values: &SetValues,
    attr: AttrId,
    size: u32,
) -> Result<Vec<Option<Atom>>, OutOfMemory>
    requires { length values.now ≡ length rule.now.sets }
    ensures { IfOk result (λ cells. cells.items ≡ map (set_atom values.now rule.now.sets attr.0) (range_with_len 0 size)) }
{
    let mut cells = Vec::new(alloc);
    for part in 0..size {
        cells.push(copy_of(alloc, atom_on(rule, values, attr, part))?)?;
    }
    Ok(cells)
}

/// The atom that is set on the cell.
fn atom_on<'a>(rule: &Rule, values: &'a SetValues, attr: AttrId, part: u32) -> Option<&'a Atom>
    requires { length values.now ≡ length rule.now.sets }
    ensures { option_map (λ atom. atom.now) result ≡ set_atom values.now rule.now.sets attr.0 part }
{
    let place = set_place(rule.sets(), attr, part)?;
    values.list().get(place)
}

/// Where the set on the cell stands.
fn set_place(sets: &[SetCell], attr: AttrId, part: u32) -> Option<usize>
    ensures { result ≡ position (is_on_cell attr.0 part) sets.now }
{
    sets.iter().position(|set| is_on(set, attr, part))
}

/// Whether the set is on the cell.
fn is_on(set: &SetCell, attr: AttrId, part: u32) -> bool
    ensures { result ≡ is_on_cell attr.0 part set.now }
{
    set.attr.0 == attr.0 && set.part == part
}
