//! The state of a run.

ghost use Rattle.std.specs.Prelude.{◌≡◌, IfOk};
ghost use Rattle.rw_schema.specs.Presentation.{signature_of};
ghost use Rattle.rw_spec.specs.Tabled.{IsOver};
ghost use Rattle.rw_columns.specs.Kept.{lists_of_columns};
ghost use Rattle.rw_document.specs.Models.{document_lists};
ghost use Rattle.rw_app.specs.Kept.{HasGoals};
ghost use Rattle.rw_app.specs.Runners.{IsWorld};

use crate::kept::kept_lists;
use rw_columns::Columns;
use rw_document::Document;
use rw_pattern::Tuple;
use rw_schema::{OutOfMemory, Schema};
use rw_steps::Steps;
use rw_table::Table;
use std::alloc::Global;
use std::sync::ledger::Ledger;

/// The state of a run: the present instance, and the kept lists in it.
#[derive(Drop)]
pub(crate) struct World {
    pub(crate) columns: Columns,
    pub(crate) lists: Vec<Vec<Tuple>>,
}

/// The state at the start of a run: the document's instance.
pub(crate) fn load<L: Ledger>(
    alloc: Global,
    document: &Document,
    steps: &mut Steps<L>,
) -> Result<World, OutOfMemory>
    requires { HasGoals (document_lists document.now) }
    ensures world { IfOk result (λ world. IsWorld (document_lists document.now) world) }
    ensures rows { IfOk result (λ world. lists_of_columns world.columns ≡ document.now.table.rows) }
{
    let columns = columns_of(alloc, &document.schema, &document.table)?;
    let lists = kept_lists(alloc, document, &columns, steps)?;
    Ok(World { columns, lists })
}

/// The columns of a table.
pub(crate) fn columns_of(
    alloc: Global,
    schema: &Schema,
    table: &Table,
) -> Result<Columns, OutOfMemory>
    requires { IsOver schema.now table.now }
    ensures over { IfOk result (λ columns. columns.signature ≡ signature_of schema.now) }
    ensures rows { IfOk result (λ columns. lists_of_columns columns ≡ table.now.rows) }
{
    Columns::from_rows(alloc, schema, table.rows())
}
