//! The names by which two instances differ.

ghost use Rattle.std.specs.Prelude.{◌≡◌, IfOk};
ghost use Rattle.rw_columns.specs.ChangedColumns.{FitsColumns};
ghost use Rattle.rw_columns.specs.Columned.{instance_of_columns};
ghost use Rattle.rw_delta.specs.After.{instance_after};
ghost use Rattle.rw_delta.specs.Deltas.{IsDelta};

use crate::Changed;
use crate::ordered::joined_lists;
use crate::touched::touched_lists;
use rw_columns::{Change, Columns};
use rw_schema::{OutOfMemory, copy_lists};
use std::alloc::Global;
use std::marker::Model;

/// The names by which an instance and what a change leaves of it differ. A name is touched where it stays and leads
/// elsewhere or has another cell; it is not touched where only arrows into it change.
#[derive(Drop)]
pub struct Delta {
    removed: Changed,
    added: Changed,
    touched: Changed,
    before: Changed,
    after: Changed,
}

impl Model for Delta {
    ghost use Rattle.rw_delta.specs.Deltas.{DeltaLists};

    ghost Value = { DeltaLists };

    ghost view = { λ delta. record {
      removed = delta.removed;
      added = delta.added;
      touched = delta.touched;
      before = delta.before;
      after = delta.after;
    } };
}

impl Delta {
    /// The names by which the instance of the columns and what the change will leave of it differ. It reads the change
    /// alone. The time is that of putting its names in order.
    pub fn of(alloc: Global, columns: &Columns, change: &Change) -> Result<Delta, OutOfMemory>
        requires { FitsColumns columns.now change.now }
        ensures { IfOk result (IsDelta columns.now.signature (instance_of_columns columns.now) (instance_after columns.now change.now)) }
    {
        let removed = copy_lists(alloc, change.removed_list())?;
        let added = copy_lists(alloc, change.added_list())?;
        let touched = touched_lists(
            alloc,
            change.removed_list().len(),
            columns.arrow_list(),
            change.rows_list(),
            columns.attribute_list(),
            change.cells_list(),
        )?;
        let before = joined_lists(alloc, removed.as_slice(), touched.as_slice())?;
        let after = joined_lists(alloc, added.as_slice(), touched.as_slice())?;
        Ok(Delta {
            removed: Changed::from_lists(removed),
            added: Changed::from_lists(added),
            touched: Changed::from_lists(touched),
            before: Changed::from_lists(before),
            after: Changed::from_lists(after),
        })
    }

    /// The names that go.
    pub fn removed(&self) -> &Changed
        ensures { result.now ≡ self.now.removed }
    {
        &self.removed
    }

    /// The names that come.
    pub fn added(&self) -> &Changed
        ensures { result.now ≡ self.now.added }
    {
        &self.added
    }

    /// The names that stay and are touched.
    pub fn touched(&self) -> &Changed
        ensures { result.now ≡ self.now.touched }
    {
        &self.touched
    }

    /// The names that go or are touched.
    pub fn before(&self) -> &Changed
        ensures { result.now ≡ self.now.before }
    {
        &self.before
    }

    /// The names that come or are touched.
    pub fn after(&self) -> &Changed
        ensures { result.now ≡ self.now.after }
    {
        &self.after
    }
}
