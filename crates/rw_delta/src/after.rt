//! Columns as a change will leave them.

ghost use Rattle.std.specs.Prelude.{◌≡◌};
ghost use Rattle.rw_columns.specs.ChangedColumns.{FitsColumns};
ghost use Rattle.rw_delta.specs.After.{instance_after};

use crate::Probe;
use crate::reads::{cell_after, is_live_after, value_after};
use rw_columns::{Change, Columns, Names, Preimage};
use rw_schema::{ArrowId, Atom, AttrId, ObjectId};
use rw_steps::Steps;
use std::marker::Model;
use std::sync::ledger::Ledger;

/// Columns as a change will leave them, read before it is carried out. Both are borrowed and stay as they are, and
/// nothing takes memory.
#[derive(Drop)]
pub struct After<'a> {
    columns: &'a Columns,
    change: &'a Change,
}

impl<'a> Model for After<'a> {
    ghost use Rattle.rw_columns.specs.ChangedColumns.{FitsColumns};
    ghost use Rattle.rw_delta.specs.After.{ChangedColumns};

    ghost Value = { ChangedColumns };

    ghost view = { λ after. record { columns = after.columns.now; change = after.change.now } };

    ghost invariant = { λ after. FitsColumns after.columns.now after.change.now };
}

impl<'a> After<'a> {
    /// The columns, as the change will leave them.
    pub fn new(columns: &'a Columns, change: &'a Change) -> After<'a>
        requires { FitsColumns columns.now change.now }
        ensures { result ≡ record { columns = columns.now; change = change.now } }
    {
        After { columns, change }
    }
}

impl<'a> Probe for After<'a> {
    ghost signature = { λ after. after.columns.signature };

    ghost instance = { λ after. instance_after after.columns after.change };

    fn value<L: Ledger>(&self, arrow: ArrowId, name: u32, steps: &mut Steps<L>) -> u32 {
        value_after(self.columns, self.change, arrow, name, steps)
    }

    fn cell<L: Ledger>(&self, attribute: AttrId, name: u32, steps: &mut Steps<L>) -> Option<&Atom> {
        cell_after(self.columns, self.change, attribute, name, steps)
    }

    fn preimage(&self, arrow: ArrowId, name: u32) -> Preimage<'_> {
        self.columns.preimage_after(self.change, arrow, name)
    }

    fn names(&self, object: ObjectId) -> Names<'_> {
        self.columns.names_after(self.change, object)
    }

    fn is_live(&self, object: ObjectId, name: u32) -> bool {
        is_live_after(self.columns, self.change, object, name)
    }

    fn known(&self) {
        let _columns = self.columns;
    }
}
