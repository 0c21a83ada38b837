//! Where arrows lead to names that get another name.

ghost use Rattle.std.specs.Prelude.{◌≡◌, ◌<◌, ◌≤◌, ◌++◌, ℕ, All, Contains, IfOk, OnOk, Some, [], filter, length, map, not, slice_get, true};
ghost use Rattle.std.specs.List.{flat_map};
ghost use Rattle.rw_schema.specs.declared.signature.ArrowEnds.{ArrowEnds};
ghost use Rattle.rw_schema.specs.Presentation.{ends_of_arrow};
ghost use Rattle.rw_schema.specs.RowLists.{list_at};
ghost use Rattle.rw_schema.specs.Signature.{source_of};
ghost use Rattle.rw_spec.specs.Ascending.{ascends};
ghost use Rattle.rw_spec.specs.Ends.{target_of};
ghost use Rattle.rw_spec.specs.Instance.{Has};
ghost use Rattle.rw_columns.specs.Changes.{beside, entry_names};
ghost use Rattle.rw_columns.specs.Columned.{preimage_of};
ghost use Rattle.rw_columns.specs.inner.Filled.{AreAll};
ghost use Rattle.rw_delta.specs.Deltas.{IsListOf};
ghost use Rattle.rw_local.specs.inner.ChangeTo.{other_values};
ghost use Rattle.rw_glue.specs.inner.Changed.{AreRowChanges, AreRedirected, leads_out, redirected};

use crate::lists::{add_list, list_of};
use rw_columns::place_of_entry;
use rw_delta::{Probe, put_in_order};
use rw_schema::{ArrowDef, ArrowId, OutOfMemory, has_number};
use rw_steps::Steps;
use std::alloc::Global;
use std::sync::ledger::Ledger;

/// Of each arrow the names that stay and lead to a name that gets another name, each with that name.
pub fn row_lists<P: Probe, L: Ledger>(
    alloc: Global,
    arrows: &[ArrowDef],
    probe: &P,
    removed: &[Vec<u32>],
    moved: &[Vec<(u32, u32)>],
    steps: &mut Steps<L>,
) -> Result<Vec<Vec<(u32, u32)>>, OutOfMemory>
    requires few { length arrows.now ≤ 256 }
    requires known { map ends_of_arrow arrows.now ≡ (P.signature probe.now).arrows }
    requires ends { (a : ℕ) (ends : ArrowEnds) → slice_get (P.signature probe.now).arrows a ≡ Some ends
        → (ends.source.0 < length removed.now) × (ends.target.0 < length moved.now)
        × All (Has (P.instance probe.now) ends.target.0) (entry_names (list_at (map (λ list. list.items) moved.now) ends.target.0))
        × (ascends (entry_names (list_at (map (λ list. list.items) moved.now) ends.target.0)) ≡ true) }
    ensures { IfOk result (λ rows. AreAll [] (AreRowChanges (P.signature probe.now) (P.instance probe.now) (map (λ list. list.items) removed.now) (map (λ list. list.items) moved.now))
        (length arrows.now) (map (λ list. list.items) rows.items)) }
{
    let mut rows = Vec::new(alloc);
    for (place, arrow) in arrows.iter().enumerate() {
        let row = row_changes(
            alloc,
            probe,
            ArrowId(place as u16),
            list_of(removed, arrow.source.0 as usize),
            list_of(moved, arrow.target.0 as usize),
            steps,
        )?;
        add_list(&mut rows, row)?;
    }
    Ok(rows)
}

/// The names that stay and that the arrow leads to a name that gets another name, each with that name.
fn row_changes<P: Probe, L: Ledger>(
    alloc: Global,
    probe: &P,
    arrow: ArrowId,
    removed: &[u32],
    moved: &[(u32, u32)],
    steps: &mut Steps<L>,
) -> Result<Vec<(u32, u32)>, OutOfMemory>
    requires arrow { arrow.0 < length (P.signature probe.now).arrows }
    requires targets { All (Has (P.instance probe.now) (target_of (P.signature probe.now) arrow.0)) (entry_names moved.now) }
    requires ascend { ascends (entry_names moved.now) ≡ true }
    ensures { IfOk result (λ row. AreRedirected (P.signature probe.now) (P.instance probe.now) arrow.0 removed.now moved.now row.items) }
{
    let names = redirected_names(alloc, probe, arrow, removed, moved, steps)?;
    let row = redirections(alloc, probe, arrow, names.as_slice(), moved, steps)?;
    Ok(row)
}

/// The names that stay and that the arrow leads to a name that gets another name.
fn redirected_names<P: Probe, L: Ledger>(
    alloc: Global,
    probe: &P,
    arrow: ArrowId,
    removed: &[u32],
    moved: &[(u32, u32)],
    steps: &mut Steps<L>,
) -> Result<Vec<u32>, OutOfMemory>
    requires arrow { arrow.0 < length (P.signature probe.now).arrows }
    requires targets { All (Has (P.instance probe.now) (target_of (P.signature probe.now) arrow.0)) (entry_names moved.now) }
    ensures { IfOk result (λ names. IsListOf (Contains (redirected (P.signature probe.now) (P.instance probe.now) arrow.0 removed.now (entry_names moved.now))) names.items) }
{
    let mut names = Vec::new(alloc);
    for entry in moved {
        append_leading(&mut names, probe, arrow, entry.0, removed, steps)?;
    }
    put_in_order(&mut names);
    Ok(names)
}

/// Appends the names that stay and that the arrow leads to the name.
fn append_leading<P: Probe, L: Ledger>(
    names: &mut Vec<u32>,
    probe: &P,
    arrow: ArrowId,
    target: u32,
    removed: &[u32],
    steps: &mut Steps<L>,
) -> Result<(), OutOfMemory>
    requires arrow { arrow.0 < length (P.signature probe.now).arrows }
    requires target { Has (P.instance probe.now) (target_of (P.signature probe.now) arrow.0) target }
    ensures { OnOk result (names.new.items ≡ names.old.items ++ leads_out (P.signature probe.now) (P.instance probe.now) arrow.0 removed.now target) }
{
    let mut walk = probe.preimage(arrow, target);
    while let Some(name) = walk.next(steps) {
        if !has_number(removed, name) {
            names.push(name)?;
        }
    }
    Ok(())
}

/// The names whose value gets another name, each with that name.
fn redirections<P: Probe, L: Ledger>(
    alloc: Global,
    probe: &P,
    arrow: ArrowId,
    names: &[u32],
    moved: &[(u32, u32)],
    steps: &mut Steps<L>,
) -> Result<Vec<(u32, u32)>, OutOfMemory>
    requires arrow { arrow.0 < length (P.signature probe.now).arrows }
    requires names { All (Has (P.instance probe.now) (source_of (P.signature probe.now) arrow.0)) names.now }
    requires ascend { ascends (entry_names moved.now) ≡ true }
    ensures { IfOk result (λ row. row.items ≡ other_values ((P.instance probe.now).value arrow.0)
        (λ x. beside ((P.instance probe.now).value arrow.0 x) moved.now ((P.instance probe.now).value arrow.0 x)) names.now) }
{
    let mut row = Vec::new(alloc);
    for name in names {
        let old = probe.value(arrow, *name, steps);
        let new = new_name(moved, old);
        if new != old {
            row.push((*name, new))?;
        }
    }
    Ok(row)
}

/// The name that the name gets.
fn new_name(moved: &[(u32, u32)], name: u32) -> u32
    requires { ascends (entry_names moved.now) ≡ true }
    ensures { result ≡ beside name moved.now name }
{
    match place_of_entry(moved, name) {
        Some(place) => moved[place].1,
        None => name,
    }
}
