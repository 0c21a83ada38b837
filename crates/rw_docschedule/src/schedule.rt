//! The schedule of a document.

ghost use Rattle.std.specs.Prelude.{◌≡◌, ◌≤◌, ℕ, IfOk, None, Some, length, map, option_map};
ghost use Rattle.serde_json.specs.View.{view};
ghost use Rattle.rw_sched.specs.ScheduleFaults.{schedule_fault};
ghost use Rattle.rw_doc.specs.Gives.{Gives};
ghost use Rattle.rw_docschedule.specs.Reads.{lists_of_boxes};
ghost use Rattle.rw_docschedule.specs.Schedules as spec;

use crate::wired::read_box;
use rw_doc::{ReadDocEnd, items_of, refused_of};
use rw_sched::{BoxKind, MOST_BOXES, Pick, Schedule};
use rw_schema::{NameIndex, OutOfMemory, Section};
use serde_json::Value;
use std::alloc::Global;

/// Boxes, and the wires of each.
#[derive(Drop)]
struct Boxes {
    boxes: Vec<BoxKind>,
    wires: Vec<Vec<u32>>,
}

/// The list of boxes.
fn read_box_list(value: &Value) -> Result<&[Value], ReadDocEnd>
    ensures gives { Gives (λ items. map view items.now) result (spec.read_box_list (view value.now)) }
    ensures some { IfOk result (λ items. 1 ≤ length items.now) }
    ensures few { IfOk result (λ items. length items.now ≤ 1024) }
{
    let Some(items) = items_of(value) else {
        return Err(refused_of(2, Section::Boxes));
    };
    if 1 <= items.len() && items.len() <= MOST_BOXES {
        Ok(items)
    } else {
        Err(refused_of(4, Section::Boxes))
    }
}

/// The boxes that the values are, over so many rules and the names of the kept lists.
fn boxes_of(
    alloc: Global,
    rules: usize,
    names: &NameIndex,
    items: &[Value],
) -> Result<Boxes, ReadDocEnd>
    requires names { length names.now ≤ 1024 }
    requires few { length items.now ≤ 1024 }
    ensures { Gives lists_of_boxes result (spec.read_boxes rules names.now (map view items.now)) }
{
    let mut boxes = Vec::new(alloc);
    let mut wires = Vec::new(alloc);
    for (place, item) in items.iter().enumerate() {
        let read = read_box(alloc, rules, names, items.len(), place as u32, item)?;
        boxes.push(read.kind)?;
        wires.push(read.to)?;
    }
    Ok(Boxes { boxes, wires })
}

/// The schedule that the value is.
fn read_written(
    alloc: Global,
    rules: usize,
    names: &NameIndex,
    value: &Value,
) -> Result<Schedule, ReadDocEnd>
    requires { length names.now ≤ 1024 }
    ensures gives { Gives (λ schedule. schedule) result (spec.read_schedule rules names.now (Some (view value.now))) }
    ensures known { IfOk result (λ schedule. schedule_fault rules (length names.now) schedule ≡ None) }
{
    let items = read_box_list(value)?;
    let read = boxes_of(alloc, rules, names, items)?;
    let Boxes { boxes, wires } = read;
    Ok(Schedule::of_checked(boxes, wires))
}

/// The schedule where none is written: the first of so many rules until it fails, and then the exit.
fn default_schedule(alloc: Global, rules: usize) -> Result<Schedule, OutOfMemory>
    ensures gives { IfOk result (λ schedule. schedule ≡ spec.default_schedule rules) }
    ensures known { IfOk result (λ schedule. (lists : ℕ) → schedule_fault rules lists schedule ≡ None) }
{
    let mut boxes = Vec::new(alloc);
    let mut wires = Vec::new(alloc);
    if rules > 0 {
        boxes.push(BoxKind::Rule(0, Pick::First))?;
        wires.push(vec![in alloc; 0, 1]?)?;
    }
    boxes.push(BoxKind::Exit)?;
    wires.push(Vec::new(alloc))?;
    Ok(Schedule::of_checked(boxes, wires))
}

/// The schedule that is written, or the default one, over so many rules and the names of the kept lists, of which those of
/// the rules are the first.
pub fn read_schedule(
    alloc: Global,
    rules: usize,
    names: &NameIndex,
    value: Option<&Value>,
) -> Result<Schedule, ReadDocEnd>
    requires { length names.now ≤ 1024 }
    ensures gives { Gives (λ schedule. schedule) result (spec.read_schedule rules names.now (option_map (λ value. view value.now) value.entry)) }
    ensures known { IfOk result (λ schedule. schedule_fault rules (length names.now) schedule ≡ None) }
{
    match value {
        Some(value) => read_written(alloc, rules, names, value),
        None => Ok(default_schedule(alloc, rules)?),
    }
}
