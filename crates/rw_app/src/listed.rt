//! What columns read as, said by their lists.

ghost use Rattle.std.specs.Prelude.{◌≡◌, ℕ, true};
ghost use Rattle.rw_schema.specs.Presentation.{signature_of};
ghost use Rattle.rw_schema.specs.Signature.{IsCategory};
ghost use Rattle.rw_spec.specs.Ascending.{ascends};
ghost use Rattle.rw_spec.specs.Instance.{IsInstance, instance_of};
ghost use Rattle.rw_columns.specs.Columned.{instance_of_columns};
ghost use Rattle.rw_columns.specs.Kept.{lists_of_columns};

use rw_columns::{Columns, Names, Preimage};
use rw_delta::Probe;
use rw_schema::{ArrowId, Atom, AttrId, ObjectId, Schema};
use rw_steps::Steps;
use std::sync::ledger::Ledger;

/// Columns of an instance over a schema, as a probe whose instance is that of their lists, of which the definitions of a run
/// speak. It is the instance of the columns too: the two differ at numbers that are no names, where nothing is read.
#[derive(Clone, Copy)]
pub(crate) struct Listed<'a> {
    schema: &'a Schema,
    columns: &'a Columns,
    ghost over: { columns.now.signature ≡ signature_of schema.now },
}

impl<'a> Listed<'a> {
    /// The columns, which are over the schema.
    pub(crate) fn of(schema: &'a Schema, columns: &'a Columns) -> Listed<'a>
        requires { columns.now.signature ≡ signature_of schema.now }
        ensures { result.columns.now ≡ columns.now }
    {
        Listed { schema, columns }
    }

    /// What is known of the columns. It does nothing at run time.
    fn known_columns(&self)
        ensures category { IsCategory self.now.columns.now.signature }
        ensures instance { IsInstance self.now.columns.now.signature (instance_of_columns self.now.columns.now) }
        ensures ascend { (object : ℕ) → ascends ((instance_of_columns self.now.columns.now).names object) ≡ true }
    {
        Columns::known(self.columns);
        let _arrows = self.schema.arrow_list();
    }
}

impl<'a> Probe for Listed<'a> {
    ghost signature = { λ listed. listed.columns.now.signature };

    ghost instance = { λ listed. instance_of listed.columns.now.signature (lists_of_columns listed.columns.now) };

    fn value<L: Ledger>(&self, arrow: ArrowId, name: u32, steps: &mut Steps<L>) -> u32 {
        self.known_columns();
        Columns::value(self.columns, arrow, name, steps)
    }

    fn cell<L: Ledger>(&self, attribute: AttrId, name: u32, steps: &mut Steps<L>) -> Option<&Atom> {
        self.known_columns();
        Columns::cell(self.columns, attribute, name, steps)
    }

    fn preimage(&self, arrow: ArrowId, name: u32) -> Preimage<'_> {
        self.known_columns();
        Columns::preimage(self.columns, arrow, name)
    }

    fn names(&self, object: ObjectId) -> Names<'_> {
        Columns::names(self.columns, object)
    }

    fn is_live(&self, object: ObjectId, name: u32) -> bool {
        Columns::is_live(self.columns, object, name)
    }

    fn known(&self) {
        self.known_columns();
    }
}
