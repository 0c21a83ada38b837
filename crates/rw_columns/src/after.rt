//! What columns will be read as, once a change is carried out on them.

ghost use Rattle.std.specs.Prelude.{◌≡◌, ◌<◌, length};
ghost use Rattle.rw_columns.specs.ChangedColumns.{FitsColumns};
ghost use Rattle.rw_columns.specs.Changes.{changed};
ghost use Rattle.rw_columns.specs.Columned.{AreColumns, instance_of_columns, preimage_of};
ghost use Rattle.rw_columns.specs.inner.Walks.{walk_list};

use crate::leading::{Added, Listed, Rewritten};
use crate::staying::Staying;
use crate::{Change, Columns, Names, Preimage};
use rw_column::Walk;
use rw_schema::{ArrowId, ObjectId};

impl Columns {
    /// A walk over the names that the arrow leads to the name once the change is carried out, in ascending order. The
    /// columns stay as they are.
    ///
    /// A whole walk takes time linear in the names that the arrow leads there before, in those that the change writes
    /// anew beside the arrow and in those that it adds, and for each of the first the time of a search in what the change removes.
    pub fn preimage_after<'a>(
        &'a self,
        change: &'a Change,
        arrow: ArrowId,
        name: u32,
    ) -> Preimage<'a>
        requires fits { FitsColumns self.now change.now }
        requires arrow { arrow.0 < length self.now.signature.arrows }
        ensures { result ≡ preimage_of self.now.signature (changed self.now.signature (instance_of_columns self.now) change.now) arrow.0 name }
    {
        let source = self.source(arrow);
        let rows = change.new_rows(arrow);
        Preimage::new(
            Staying::new(
                self.leading_to(arrow, name),
                change.removed_names(source),
                rows,
            ),
            Rewritten::new(rows, name),
            Added::new(change.added_names(source), change.added_images(arrow), name),
        )
    }

    /// A walk over the names that the object has once the change is carried out, in ascending order. The columns stay as
    /// they are.
    ///
    /// A whole walk takes time linear in the names that it gives and in those that go, and for each of them the time of a
    /// search in what the change removes.
    pub fn names_after<'a>(&'a self, change: &'a Change, object: ObjectId) -> Names<'a>
        requires fits { FitsColumns self.now change.now }
        requires object { object.0 < self.now.signature.objects }
        ensures { result ≡ (changed self.now.signature (instance_of_columns self.now) change.now).names object.0 }
    {
        let walk = Walk::new(self.live(object), 0);
        Names::new(
            Staying::new(Some(walk), change.removed_names(object), &[]),
            Listed::new(change.added_names(object)),
        )
    }

    /// A walk over the names that the arrow leads to the number, if names may have been led there.
    fn leading_to(&self, arrow: ArrowId, number: u32) -> Option<Walk<'_>>
        requires { arrow.0 < length self.now.signature.arrows }
        ensures walk { walk_list result ≡ preimage_of self.now.signature (instance_of_columns self.now) arrow.0 number }
        ensures sound { AreColumns self.now }
    {
        let column = self.row(arrow);
        if number < column.targets() {
            Some(Walk::new(column, number))
        } else {
            None
        }
    }
}
