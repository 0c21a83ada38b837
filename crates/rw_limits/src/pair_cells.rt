//! Cells of pairs: the atoms that both parts have.

ghost use Rattle.std.specs.Prelude.{◌≡◌, ◌<◌, ◌≤◌, All, IfOk, Some, length, map};
ghost use Rattle.std.specs.Option.{option_map};
ghost use Rattle.rw_schema.specs.Atoms.{are_same_atom};
ghost use Rattle.rw_schema.specs.First.{map_in};
ghost use Rattle.rw_schema.specs.Presentation.{ends_of_attribute};
ghost use Rattle.rw_spec.specs.Tabled.{instance_of_table};
ghost use Rattle.rw_limits.specs.inner.PairLists.{IsLexicographic, cell_of_pair, cells_of_pairs};
ghost use Rattle.rw_limits.specs.Pairs.{common};
ghost use Rattle.rw_limits.specs.Pullbacks.{most_pairs};

use crate::pairs::pairs_of;
use rw_schema::{Atom, AttrDef, AttrId, OutOfMemory, Schema};
use rw_table::Table;
use std::alloc::Global;

/// The cells of each attribute of the schema, where these are the pairs of each object.
pub fn pair_cells(
    alloc: Global,
    schema: &Schema,
    left: &Table,
    right: &Table,
    pairs: &[Vec<(u32, u32)>],
) -> Result<Vec<Vec<Option<Atom>>>, OutOfMemory>
    requires left { length left.now.signature.attributes ≡ length schema.now.attributes }
    requires right { length right.now.signature.attributes ≡ length schema.now.attributes }
    requires objects { length pairs.now ≡ length schema.now.objects }
    requires ascend { All (λ list. IsLexicographic list.items) pairs.now }
    requires few { All (λ list. length list.items ≤ most_pairs) pairs.now }
    ensures { IfOk result (λ cells. map (λ list. list.items) cells.items
        ≡ map_in (cells_of_pairs (instance_of_table left.now) (instance_of_table right.now) (map (λ list. list.items) pairs.now)) 0 (map ends_of_attribute schema.now.attributes)) }
{
    let mut cells = Vec::new(alloc);
    let attributes = schema.attribute_list();
    for (place, attribute) in attributes.iter().enumerate() {
        cells.push(attribute_cells(alloc, left, right, AttrId(place as u16), attribute, pairs)?)?;
    }
    Ok(cells)
}

/// The cells of an attribute.
fn attribute_cells(
    alloc: Global,
    left: &Table,
    right: &Table,
    place: AttrId,
    attribute: &AttrDef,
    pairs: &[Vec<(u32, u32)>],
) -> Result<Vec<Option<Atom>>, OutOfMemory>
    requires left { place.0 < length left.now.signature.attributes }
    requires right { place.0 < length right.now.signature.attributes }
    requires object { attribute.now.object.0 < length pairs.now }
    requires ascend { All (λ list. IsLexicographic list.items) pairs.now }
    requires few { All (λ list. length list.items ≤ most_pairs) pairs.now }
    ensures { IfOk result (λ cells. cells.items ≡ cells_of_pairs (instance_of_table left.now) (instance_of_table right.now) (map (λ list. list.items) pairs.now) place.0 (ends_of_attribute attribute.now)) }
{
    cells_at(alloc, left, right, place, pairs_of(pairs, attribute.object))
}

/// The attribute's cell at each pair.
fn cells_at(
    alloc: Global,
    left: &Table,
    right: &Table,
    attribute: AttrId,
    pairs: &[(u32, u32)],
) -> Result<Vec<Option<Atom>>, OutOfMemory>
    requires left { attribute.0 < length left.now.signature.attributes }
    requires right { attribute.0 < length right.now.signature.attributes }
    ensures { IfOk result (λ cells. cells.items ≡ map (cell_of_pair (instance_of_table left.now) (instance_of_table right.now) attribute.0) pairs.now) }
{
    let mut cells = Vec::new(alloc);
    for pair in pairs {
        let cell = common_cell(
            alloc,
            left.atom(attribute, pair.0),
            right.atom(attribute, pair.1),
        )?;
        cells.push(cell)?;
    }
    Ok(cells)
}

/// The atom that both cells have, or a blank.
fn common_cell(
    alloc: Global,
    left: Option<&Atom>,
    right: Option<&Atom>,
) -> Result<Option<Atom>, OutOfMemory>
    ensures { IfOk result (λ cell. cell ≡ common (option_map (λ atom. atom.now) left.entry) (option_map (λ atom. atom.now) right.entry)) }
{
    match left {
        Some(atom) if atom.is_in(right) => Ok(Some(atom.copy(alloc)?)),
        _ => Ok(None),
    }
}
