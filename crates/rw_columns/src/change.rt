//! Changes of an instance.

ghost use Rattle.std.specs.Prelude.{◌≡◌, ◌<◌, length, map};
ghost use Rattle.rw_schema.specs.RowLists.{list_at};

use rw_schema::{ArrowId, Atom, AttrId, ObjectId};
use std::marker::Model;

/// The names that come with a change, and what they lead to.
#[derive(Drop)]
pub struct Added {
    /// Of each object the names that come.
    pub names: Vec<Vec<u32>>,

    /// Of each arrow one image for each name of its source that comes, in their order.
    pub rows: Vec<Vec<u32>>,

    /// Of each attribute one cell for each name of its object that comes, in their order.
    pub cells: Vec<Vec<Option<Atom>>>,

    /// Of each object the next name afterwards.
    pub next: Vec<u32>,
}

impl Model for Added {
    ghost use Rattle.std.specs.Prelude.{map};
    ghost use Rattle.rw_schema.specs.RowLists.{RowLists};

    ghost Value = { RowLists };

    ghost view = { λ added. record {
      names = map (λ list. list.items) added.names.items;
      arrows = map (λ list. list.items) added.rows.items;
      cells = map (λ list. list.items) added.cells.items;
      next = added.next.items;
    } };
}

impl Added {
    /// The lists of names, of images, of cells and of next names.
    pub(crate) fn into_lists(
        self,
    ) -> (
        Vec<Vec<u32>>,
        Vec<Vec<u32>>,
        Vec<Vec<Option<Atom>>>,
        Vec<u32>,
    )
        ensures { self ≡ record {
          names = map (λ list. list.items) result.0.items;
          arrows = map (λ list. list.items) result.1.items;
          cells = map (λ list. list.items) result.2.items;
          next = result.3.items;
        } }
    {
        (self.names, self.rows, self.cells, self.next)
    }

    /// The next name of each object.
    pub(crate) fn next_list(&self) -> &[u32]
        ensures { result.now ≡ self.now.next }
    {
        self.next.as_slice()
    }
}

/// What changes of an instance: the names that go, the names that come with what they lead to, and what is written
/// anew beside names that stay. It speaks of no columns, and is not looked at when it is made.
#[derive(Drop)]
pub struct Change {
    /// Of each object the names that go.
    pub removed: Vec<Vec<u32>>,

    /// The names that come, with their rows and cells, and the next names afterwards.
    pub added: Added,

    /// Of each arrow the names that stay and lead elsewhere, each with its new value.
    pub rows: Vec<Vec<(u32, u32)>>,

    /// Of each attribute the names that stay and have another cell, each with its new cell.
    pub cells: Vec<Vec<(u32, Option<Atom>)>>,
}

impl Model for Change {
    ghost use Rattle.std.specs.Prelude.{map};
    ghost use Rattle.rw_columns.specs.Changes.{ChangeLists};

    ghost Value = { ChangeLists };

    ghost view = { λ c. record {
      removed = map (λ list. list.items) c.removed.items;
      added = c.added;
      rows = map (λ list. list.items) c.rows.items;
      cells = map (λ list. list.items) c.cells.items;
    } };
}

impl Change {
    /// The names of each object that go.
    pub fn removed_list(&self) -> &[Vec<u32>]
        ensures { map (λ list. list.items) result.now ≡ self.now.removed }
    {
        self.removed.as_slice()
    }

    /// The names of each object that come.
    pub fn added_list(&self) -> &[Vec<u32>]
        ensures { map (λ list. list.items) result.now ≡ self.now.added.names }
    {
        self.added.names.as_slice()
    }

    /// The names that each arrow leads elsewhere, each with its new value.
    pub fn rows_list(&self) -> &[Vec<(u32, u32)>]
        ensures { map (λ list. list.items) result.now ≡ self.now.rows }
    {
        self.rows.as_slice()
    }

    /// The names that have another cell of each attribute, each with its new cell.
    pub fn cells_list(&self) -> &[Vec<(u32, Option<Atom>)>]
        ensures { map (λ list. list.items) result.now ≡ self.now.cells }
    {
        self.cells.as_slice()
    }

    /// The names of the object that go.
    pub fn removed_names(&self, object: ObjectId) -> &[u32]
        requires { object.0 < length self.now.removed }
        ensures { result.now ≡ list_at self.now.removed object.0 }
    {
        self.removed[object.0 as usize].as_slice()
    }

    /// The names that the arrow leads elsewhere, each with its new value.
    pub fn new_rows(&self, arrow: ArrowId) -> &[(u32, u32)]
        requires { arrow.0 < length self.now.rows }
        ensures { result.now ≡ list_at self.now.rows arrow.0 }
    {
        self.rows[arrow.0 as usize].as_slice()
    }

    /// The names that have another cell of the attribute, each with its new cell.
    pub fn new_cells(&self, attribute: AttrId) -> &[(u32, Option<Atom>)]
        requires { attribute.0 < length self.now.cells }
        ensures { result.now ≡ list_at self.now.cells attribute.0 }
    {
        self.cells[attribute.0 as usize].as_slice()
    }

    /// The names of the object that come.
    pub fn added_names(&self, object: ObjectId) -> &[u32]
        requires { object.0 < length self.now.added.names }
        ensures { result.now ≡ list_at self.now.added.names object.0 }
    {
        self.added.names[object.0 as usize].as_slice()
    }

    /// Where the arrow leads from the names that come, in their order.
    pub fn added_images(&self, arrow: ArrowId) -> &[u32]
        requires { arrow.0 < length self.now.added.arrows }
        ensures { result.now ≡ list_at self.now.added.arrows arrow.0 }
    {
        self.added.rows[arrow.0 as usize].as_slice()
    }

    /// The cells of the attribute at the names that come, in their order.
    pub fn added_cells(&self, attribute: AttrId) -> &[Option<Atom>]
        requires { attribute.0 < length self.now.added.cells }
        ensures { result.now ≡ list_at self.now.added.cells attribute.0 }
    {
        self.added.cells[attribute.0 as usize].as_slice()
    }
}
