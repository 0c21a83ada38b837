//! The lists of an instance.

ghost use Rattle.std.specs.Prelude.{◌≡◌, ◌<◌, ◌↔◌, IfOk, IsTrue, List, Option, length, map, slice_index};
ghost use Rattle.rw_schema.specs.RowLists.{RowLists, list_at};

use crate::cells::{are_same_cell_lists, copy_cell_lists};
use crate::numbers::copy_lists;
use crate::{ArrowId, Atom, AttrId, ObjectId, OutOfMemory};
use std::alloc::Global;
use std::marker::Model;

/// The lists of an instance: of each object the names of its parts, of each arrow one image for each name
/// of its source, in the order of the names, of each attribute one cell for each name of its object, and of
/// each object the next name to be given. Whether the lists are an instance of some schema is not looked at
/// here.
#[derive(Drop)]
pub struct Rows {
    names: Vec<Vec<u32>>,
    arrows: Vec<Vec<u32>>,
    cells: Vec<Vec<Option<Atom>>>,
    next: Vec<u32>,
}

impl Model for Rows {
    ghost use Rattle.std.specs.Prelude.{map};
    ghost use Rattle.rw_schema.specs.RowLists.{RowLists};

    ghost Value = { RowLists };

    ghost view = { λ rows. record {
      names = map (λ list. list.items) rows.names.items;
      arrows = map (λ list. list.items) rows.arrows.items;
      cells = map (λ list. list.items) rows.cells.items;
      next = rows.next.items;
    } };
}

impl Rows {
    pub fn from_lists(
        names: Vec<Vec<u32>>,
        arrows: Vec<Vec<u32>>,
        cells: Vec<Vec<Option<Atom>>>,
        next: Vec<u32>,
    ) -> Rows
        ensures { result ≡ record {
          names = map (λ list. list.items) names.items;
          arrows = map (λ list. list.items) arrows.items;
          cells = map (λ list. list.items) cells.items;
          next = next.items;
        } }
    {
        Rows {
            names,
            arrows,
            cells,
            next,
        }
    }

    /// The names of an object's parts.
    pub fn names(&self, object: ObjectId) -> &[u32]
        requires { object.0 < length self.now.names }
        ensures { result.now ≡ list_at self.now.names object.0 }
    {
        self.names[object.0 as usize].as_slice()
    }

    /// The images under an arrow: the i-th is that of the i-th name of its source.
    pub fn row(&self, arrow: ArrowId) -> &[u32]
        requires { arrow.0 < length self.now.arrows }
        ensures { result.now ≡ list_at self.now.arrows arrow.0 }
    {
        self.arrows[arrow.0 as usize].as_slice()
    }

    /// The cells of an attribute: the i-th is that of the i-th name of its object, and none where it is blank.
    pub fn cells(&self, attribute: AttrId) -> &[Option<Atom>]
        requires { attribute.0 < length self.now.cells }
        ensures { result.now ≡ list_at self.now.cells attribute.0 }
    {
        self.cells[attribute.0 as usize].as_slice()
    }

    /// The next name of an object.
    pub fn next(&self, object: ObjectId) -> u32
        requires { object.0 < length self.now.next }
        ensures { result ≡ slice_index self.now.next object.0 }
    {
        self.next[object.0 as usize]
    }

    /// The number of lists of names.
    pub fn name_lists(&self) -> usize
        ensures { result ≡ length self.now.names }
    {
        self.names.len()
    }

    /// The number of lists of images.
    pub fn row_lists(&self) -> usize
        ensures { result ≡ length self.now.arrows }
    {
        self.arrows.len()
    }

    /// The number of lists of cells.
    pub fn cell_lists(&self) -> usize
        ensures { result ≡ length self.now.cells }
    {
        self.cells.len()
    }

    /// The number of next names.
    pub fn next_names(&self) -> usize
        ensures { result ≡ length self.now.next }
    {
        self.next.len()
    }

    /// A copy, in memory of its own.
    pub fn copy(&self, alloc: Global) -> Result<Rows, OutOfMemory>
        ensures { IfOk result (λ rows. rows ≡ self.now) }
    {
        let names = copy_lists(alloc, self.names.as_slice())?;
        let arrows = copy_lists(alloc, self.arrows.as_slice())?;
        let cells = copy_cell_lists(alloc, self.cells.as_slice())?;
        let next = self.next.as_slice().to_vec(alloc)?;
        Ok(Rows {
            names,
            arrows,
            cells,
            next,
        })
    }

    /// Whether all lists of both are equal.
    pub fn same(&self, other: &Rows) -> bool
        ensures { IsTrue result ↔ (self.now ≡ other.now) }
    {
        are_equal(self.names.as_slice(), other.names.as_slice())
            && are_equal(self.arrows.as_slice(), other.arrows.as_slice())
            && are_same_cell_lists(self.cells.as_slice(), other.cells.as_slice())
            && self.next == other.next
    }
}

/// Whether the lists of both are equal.
fn are_equal(left: &[Vec<u32>], right: &[Vec<u32>]) -> bool
    ensures { IsTrue result ↔ (map (λ list. list.items) left.now ≡ map (λ list. list.items) right.now) }
{
    left == right
}
