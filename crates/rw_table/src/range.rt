//! Whether each image is a name of its arrow's target.

ghost use Rattle.std.specs.Prelude.{◌≡◌, ◌==◌, ◌<◌, ◌≤◌, ◌^◌, true, IfOk, None, length, map};
ghost use Rattle.std.specs.List.{list_any};
ghost use Rattle.rw_schema.specs.First.{first_in, fault_unless};
ghost use Rattle.rw_schema.specs.Presentation.{signature_of, ends_of_arrow};
ghost use Rattle.rw_schema.specs.RowLists.{list_at};
ghost use Rattle.rw_table.specs.TableFaults.{has_shape, names_fault, row_fault, range_fault};
ghost use Rattle.rw_spec.specs.Ascending.{ascends};
ghost use Rattle.rw_table.specs.declared.fault.TableFault.TheVariants.{Range};

use crate::TableFault;
use crate::beside::has_name;
use crate::names::count_of;
use rw_schema::{ArrowDef, ArrowEnds, ArrowId, OutOfMemory, Rows, Schema};
use std::alloc::Global;

/// The ends of the arrows, in order.
pub fn arrow_ends(alloc: Global, arrows: &[ArrowDef]) -> Result<Vec<ArrowEnds>, OutOfMemory>
    ensures { IfOk result (λ ends. ends.items ≡ map ends_of_arrow arrows.now) }
{
    let ends = arrows.iter().map(ends_of).collect(alloc)?;
    Ok(ends)
}

/// The ends of the arrow.
fn ends_of(arrow: &ArrowDef) -> ArrowEnds
    ensures { result ≡ ends_of_arrow arrow.now }
{
    ArrowEnds {
        source: arrow.source,
        target: arrow.target,
    }
}

/// The first image that is no name of its arrow's target.
pub fn first_range_fault(schema: &Schema, rows: &Rows) -> Option<TableFault>
    requires shape { has_shape (signature_of schema.now) rows.now ≡ true }
    requires names { names_fault rows.now ≡ None }
    ensures { result ≡ range_fault (signature_of schema.now) rows.now }
{
    let arrows = schema.arrow_list();
    for (place, arrow) in arrows.iter().enumerate() {
        if let Some(fault) = first_row_fault(rows, ArrowId(place as u16), ends_of(arrow)) {
            return Some(fault);
        }
    }
    None
}

/// The first image of the row that is no name of the arrow's target.
fn first_row_fault(rows: &Rows, arrow: ArrowId, ends: ArrowEnds) -> Option<TableFault>
    requires source { ends.source.0 < length rows.now.names }
    requires target { ends.target.0 < length rows.now.names }
    requires row { arrow.0 < length rows.now.arrows }
    requires beside { length (list_at rows.now.arrows arrow.0) ≡ length (list_at rows.now.names ends.source.0) }
    requires names { names_fault rows.now ≡ None }
    ensures { result ≡ row_fault rows.now arrow.0 ends }
{
    let sources = rows.names(ends.source);
    let targets = rows.names(ends.target);
    let images = rows.row(arrow);
    let count = count_of(sources);
    prove!(images.len() == count);
    first_stray(arrow, targets, images)
}

/// The first image that is none of the names.
fn first_stray(arrow: ArrowId, names: &[u32], images: &[u32]) -> Option<TableFault>
    requires names { ascends names.now ≡ true }
    requires few { length images.now ≤ 2 ^ 32 }
    ensures { result ≡ first_in (λ position image. fault_unless (list_any (λ name. name == image) names.now) (Range arrow position)) 0 images.now }
{
    for (position, image) in images.iter().enumerate() {
        if !has_name(names, *image) {
            return Some(TableFault::Range {
                arrow,
                position: position as u32,
            });
        }
    }
    None
}
