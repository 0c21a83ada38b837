//! Whether the names of each object ascend strictly, below its next name.

ghost use Rattle.std.specs.Prelude.{◌≡◌, ◌≤◌, ◌^◌, true, length, nat_lt};
ghost use Rattle.std.specs.List.{list_all};
ghost use Rattle.rw_table.specs.TableFaults.{are_names, names_fault};
ghost use Rattle.rw_spec.specs.Ascending.{ascends};

use crate::TableFault;
use rw_schema::{ObjectId, Rows};

/// The first object whose names do not ascend strictly, or are not below the next name.
pub fn first_names_fault(rows: &Rows) -> Option<TableFault>
    requires few { length rows.now.names ≤ 64 }
    requires next { length rows.now.next ≡ length rows.now.names }
    ensures { result ≡ names_fault rows.now }
{
    for place in 0..rows.name_lists() {
        let object = ObjectId(place as u16);
        if !are_below(rows.next(object), rows.names(object)) {
            return Some(TableFault::Names { object });
        }
    }
    None
}

/// Whether the names ascend strictly, and are below the next name.
fn are_below(next: u32, names: &[u32]) -> bool
    ensures { result ≡ are_names next names.now }
{
    are_ascending(names) && are_less(names, next)
}

/// Whether each number is less than the one after it.
fn are_ascending(names: &[u32]) -> bool
    ensures { result ≡ ascends names.now }
{
    names.is_sorted_by(|earlier, later| *earlier < *later)
}

/// Whether each number is less than the bound.
fn are_less(names: &[u32], bound: u32) -> bool
    ensures { result ≡ list_all (λ name. nat_lt name bound) names.now }
{
    names.iter().all(|name| *name < bound)
}

/// The number of names. They are different numbers of 32 bits.
pub fn count_of(names: &[u32]) -> usize
    requires { ascends names.now ≡ true }
    ensures value { result ≡ length names.now }
    ensures few { result ≤ 2 ^ 32 }
{
    names.len()
}
