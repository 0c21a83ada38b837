//! Changes that are carried out on columns.

ghost use Rattle.std.specs.Prelude.{OnOk};
ghost use Rattle.rw_columns.specs.ChangedColumns.{FitsColumns, HasRoom, KeepContents, AreChanged};

use crate::cell_changes::{renew_all, write_all};
use crate::changes::{change_all_arrows, change_all_names};
use crate::room::parts_room;
use crate::{Change, Columns};
use rw_schema::OutOfMemory;

impl Columns {
    /// Makes the room that the change takes, so that [`Columns::commit`] of it takes no memory. For want of memory some
    /// of the room may have been made. What the columns hold stays as it is.
    ///
    /// The time is in proportion to the numbers of objects, arrows and attributes, and where a list has to move, to its length.
    pub fn make_room(&mut self, change: &Change) -> Result<(), OutOfMemory>
        requires { FitsColumns self.old change.now }
        ensures contents { KeepContents self.old self.new }
        ensures fits { FitsColumns self.new change.now }
        ensures room { OnOk result (HasRoom self.new change.now) }
    {
        parts_room(
            &mut self.names,
            &mut self.arrows,
            &mut self.cells,
            self.arrow_ends.as_slice(),
            self.attribute_ends.as_slice(),
            change.added.next_list(),
        )
    }

    /// Carries the change out. It takes no memory, and cannot fail.
    ///
    /// The time is in proportion to the numbers of objects, arrows and attributes, the names in the change, and what the next
    /// names rise by. Beside it, the n names that an arrow leads elsewhere take n log n comparisons, and those of them that
    /// it leads to one name one walk together over the names behind the first of them that lead there.
    pub fn commit(&mut self, change: Change)
        requires fits { FitsColumns self.old change }
        requires room { HasRoom self.old change }
        ensures { AreChanged self.old change self.new }
    {
        let Change {
            removed,
            added,
            rows,
            cells,
        } = change;
        let (names, images, atoms, next) = added.into_lists();
        let arrow_ends = self.arrow_ends.as_slice();
        let attribute_ends = self.attribute_ends.as_slice();
        change_all_names(
            &mut self.names,
            removed.as_slice(),
            names.as_slice(),
            next.as_slice(),
        );
        change_all_arrows(
            &mut self.arrows,
            arrow_ends,
            removed.as_slice(),
            rows,
            names.as_slice(),
            images.as_slice(),
            next.as_slice(),
        );
        renew_all(
            &mut self.cells,
            attribute_ends,
            removed.as_slice(),
            names.as_slice(),
            atoms,
            next.as_slice(),
        );
        write_all(&mut self.cells, cells);
    }
}
