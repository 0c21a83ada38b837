//! Instances of a span or a cospan.

ghost use Rattle.std.specs.Prelude.{◌≡◌, IfOk, Ok, is_none, length, true};
ghost use Rattle.serde_json.specs.View.{view};
ghost use Rattle.rw_schema.specs.First.{all_in};
ghost use Rattle.rw_schema.specs.Presentation.{signature_of};
ghost use Rattle.rw_table.specs.TableFaults.{table_fault};
ghost use Rattle.rw_spec.specs.Tabled.{IsOver};
ghost use Rattle.rw_doc.specs.Chain.{and_then, checked, some_or};
ghost use Rattle.rw_doc.specs.Gives.{Gives};
ghost use Rattle.rw_doc.specs.Pieces.{fault_in};
ghost use Rattle.rw_docspan.specs.Instances as spec;
ghost use Rattle.rw_docspan.specs.Views.{form_lists};

use crate::cells::cells_of;
use crate::forms::{Form, form_of};
use crate::images::have_images;
use crate::lengths::has_lengths;
use crate::limits::is_in_limits;
use rw_doc::{Piece, ReadDocEnd, rows_of};
use rw_schema::{Rows, Schema};
use rw_table::{Table, TableFault};
use serde_json::Value;
use std::alloc::Global;

/// The instance with the lists, where they are one.
fn table_of(alloc: Global, schema: &Schema, piece: Piece, rows: Rows) -> Result<Table, ReadDocEnd>
    ensures { Gives (λ table. table) result
        (checked (fault_in piece 10) (is_none (table_fault (signature_of schema.now) rows)) (Ok (record { signature = signature_of schema.now; rows = rows }))) }
{
    match Table::new(alloc, schema, rows) {
        Ok(table) => Ok(table),
        Err(TableFault::OutOfMemory) => Err(ReadDocEnd::OutOfMemory),
        Err(_) => Err(piece.refused(10)),
    }
}

/// The instance of the form, whose lengths and images are right.
fn instance_of(
    alloc: Global,
    schema: &Schema,
    piece: Piece,
    form: Form<'_>,
) -> Result<Table, ReadDocEnd>
    requires lengths { spec.has_lengths (signature_of schema.now) (form_lists form) ≡ true }
    requires cells { length form.cells.items ≡ length schema.now.attributes }
    requires images { all_in (spec.has_images (form_lists form).parts (form_lists form).rows) 0 (signature_of schema.now).arrows ≡ true }
    ensures { Gives (λ table. table) result
        (and_then (some_or (fault_in piece 9) (spec.cells_of (signature_of schema.now) (form_lists form.entry).cells))
        (λ cells. spec.where_equal (signature_of schema.now) piece (form_lists form.entry).parts (form_lists form.entry).rows cells)) }
{
    let Form { parts, rows, cells } = form;
    let Some(cells) = cells_of(alloc, schema.attribute_list(), cells.as_slice())? else {
        return Err(piece.refused(9));
    };
    let rows = rows_of(alloc, parts, rows, cells)?;
    table_of(alloc, schema, piece, rows)
}

/// The instance that the value is, or the least code of what is wrong in the piece.
fn instance_in(
    alloc: Global,
    schema: &Schema,
    piece: Piece,
    value: &Value,
) -> Result<Table, ReadDocEnd>
    ensures { Gives (λ table. table) result (spec.read_instance (signature_of schema.now) piece (view value.now)) }
{
    let Some(form) = form_of(alloc, value)? else {
        return Err(piece.refused(2));
    };
    if !has_lengths(schema, &form) {
        return Err(piece.refused(2));
    }
    if !is_in_limits(&form) {
        return Err(piece.refused(4));
    }
    if !have_images(
        form.parts.as_slice(),
        form.rows.as_slice(),
        schema.arrow_list(),
    ) {
        return Err(piece.refused(8));
    }
    instance_of(alloc, schema, piece, form)
}

/// The instance that the value is, or the least code of what is wrong in the piece. A cell may be blank.
pub(crate) fn read_instance(
    alloc: Global,
    schema: &Schema,
    piece: Piece,
    value: &Value,
) -> Result<Table, ReadDocEnd>
    ensures gives { Gives (λ table. table) result (spec.read_instance (signature_of schema.now) piece (view value.now)) }
    ensures over { IfOk result (IsOver schema.now) }
    ensures size { IfOk result (spec.IsOfSize (signature_of schema.now)) }
{
    instance_in(alloc, schema, piece, value)
}
