//! Whether boxes and wires are a schedule.

ghost use Rattle.std.specs.Prelude.{◌≡◌, ◌<◌, ◌≤◌, length, map, slice_get, true, None};
ghost use Rattle.std.specs.List.{list_all};
ghost use Rattle.rw_schema.specs.RowLists.{list_at};
ghost use Rattle.rw_sched.specs.Schedules.{ports as ports_of_box};
ghost use Rattle.rw_sched.specs.ScheduleFaults.{is_box as is_box_within, is_within_limits as within, has_wires as has_wires_at, first_unwired, first_lost_of, first_lost, is_known as knows, first_unknown, wire_fault, schedule_fault};

use crate::boxes::BoxKind;
use crate::fault::WireFault;
use crate::weights::is_small;

/// The greatest number of boxes.
pub const MOST_BOXES: usize = 1024;

/// How many ports a box has.
pub fn ports(kind: &BoxKind) -> usize
    ensures { result ≡ ports_of_box kind.now }
{
    match kind {
        BoxKind::Rule(_, _) => 2,
        BoxKind::Test(_, _, _) => 2,
        BoxKind::Draw(weights) => weights.len(),
        BoxKind::Loop(_) => 2,
        BoxKind::Show => 1,
        BoxKind::Exit => 0,
        BoxKind::Fail => 0,
    }
}

/// Whether the numbers of a box are within their limits.
fn is_box(kind: &BoxKind) -> bool
    ensures { result ≡ is_box_within kind.now }
{
    match kind {
        BoxKind::Draw(weights) => weights.are_within_limits(),
        BoxKind::Loop(count) => is_small(*count),
        BoxKind::Rule(_, _) => true,
        BoxKind::Test(_, _, _) => true,
        BoxKind::Show => true,
        BoxKind::Exit => true,
        BoxKind::Fail => true,
    }
}

/// Whether each box is within its limits.
fn are_boxes(boxes: &[BoxKind]) -> bool
    ensures { result ≡ list_all is_box_within boxes.now }
{
    boxes.iter().all(|kind| is_box(kind))
}

/// Whether the boxes are within their limits.
fn is_within_limits(boxes: &[BoxKind]) -> bool
    ensures { result ≡ within boxes.now }
{
    1 <= boxes.len() && boxes.len() <= MOST_BOXES && are_boxes(boxes)
}

/// Whether there is a list of so many wires at the place.
fn has_wires(wires: &[Vec<u32>], place: usize, ports: usize) -> bool
    ensures { result ≡ has_wires_at (slice_get (map (λ list. list.items) wires.now) place) ports }
{
    match wires.get(place) {
        Some(list) => list.len() == ports,
        None => false,
    }
}

/// The first box that has not one wire for each port.
fn unwired(boxes: &[BoxKind], wires: &[Vec<u32>]) -> Option<WireFault>
    requires { length boxes.now < 1025 }
    ensures { result ≡ first_unwired (record { boxes = boxes.now; wires = map (λ list. list.items) wires.now }) }
{
    for (place, kind) in boxes.iter().enumerate() {
        if !has_wires(wires, place, ports(kind)) {
            return Some(WireFault::Ports {
                place: place as u32,
            });
        }
    }
    None
}

/// The first wire of the box at this place that leads to no box.
fn lost_of(boxes: usize, place: u32, wires: &[u32]) -> Option<WireFault>
    requires { length wires.now ≤ 64 }
    ensures { result ≡ first_lost_of boxes place wires.now }
{
    for (port, wire) in wires.iter().enumerate() {
        if *wire as usize >= boxes {
            return Some(WireFault::Wire {
                place,
                port: port as u32,
            });
        }
    }
    None
}

/// The first wire of the box at this place that leads to no box.
fn lost_at(boxes: usize, wires: &[Vec<u32>], place: usize) -> Option<WireFault>
    requires there { place < length wires.now }
    requires fits { place < 1025 }
    requires few { length (list_at (map (λ list. list.items) wires.now) place) ≤ 64 }
    ensures { result ≡ first_lost_of boxes place (list_at (map (λ list. list.items) wires.now) place) }
{
    lost_of(boxes, place as u32, wires[place].as_slice())
}

/// The first wire that leads to no box.
fn lost(boxes: &[BoxKind], wires: &[Vec<u32>]) -> Option<WireFault>
    requires limits { within boxes.now ≡ true }
    requires wired { first_unwired (record { boxes = boxes.now; wires = map (λ list. list.items) wires.now }) ≡ None }
    ensures { result ≡ first_lost (record { boxes = boxes.now; wires = map (λ list. list.items) wires.now }) }
{
    for (place, _) in boxes.iter().enumerate() {
        if let Some(fault) = lost_at(boxes.len(), wires, place) {
            return Some(fault);
        }
    }
    None
}

/// Whether the rule or the list that a box names is there.
fn is_known(rules: usize, lists: usize, kind: &BoxKind) -> bool
    ensures { result ≡ knows rules lists kind.now }
{
    match kind {
        BoxKind::Rule(rule, _) => (*rule as usize) < rules,
        BoxKind::Test(list, _, _) => (*list as usize) < lists,
        BoxKind::Draw(_) => true,
        BoxKind::Loop(_) => true,
        BoxKind::Show => true,
        BoxKind::Exit => true,
        BoxKind::Fail => true,
    }
}

/// The first box that names a rule or a list that is not there.
fn unknown(rules: usize, lists: usize, boxes: &[BoxKind], wires: &[Vec<u32>]) -> Option<WireFault>
    requires { length boxes.now < 1025 }
    ensures { result ≡ first_unknown rules lists (record { boxes = boxes.now; wires = map (λ list. list.items) wires.now }) }
{
    let _wires = wires;
    for (place, kind) in boxes.iter().enumerate() {
        if !is_known(rules, lists, kind) {
            return Some(WireFault::Unknown {
                place: place as u32,
            });
        }
    }
    None
}

/// Why the boxes and wires are no schedule: the first condition that fails, at the least place.
pub(crate) fn fault_of(
    boxes: &[BoxKind],
    wires: &[Vec<u32>],
    rules: usize,
    lists: usize,
) -> Option<WireFault>
    ensures { result ≡ schedule_fault rules lists (record { boxes = boxes.now; wires = map (λ list. list.items) wires.now }) }
{
    if !is_within_limits(boxes) {
        return Some(WireFault::Limit);
    }
    if let Some(fault) = unwired(boxes, wires) {
        return Some(fault);
    }
    if let Some(fault) = lost(boxes, wires) {
        return Some(fault);
    }
    unknown(rules, lists, boxes, wires)
}
