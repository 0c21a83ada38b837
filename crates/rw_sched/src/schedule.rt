//! Schedules.

ghost use Rattle.std.specs.Prelude.{◌≡◌, ◌<◌, length, map, slice_index, true, None};
ghost use Rattle.rw_schema.specs.RowLists.{list_at};
ghost use Rattle.rw_sched.specs.Schedules.{box_at, ports_at, wire_at};
ghost use Rattle.rw_sched.specs.ScheduleFaults.{BuildsSchedule, is_box, wire_fault};

use crate::boxes::BoxKind;
use crate::build::fault_of;
use crate::fault::WireFault;
use std::marker::Model;

/// A schedule: boxes, and for each of its ports the box that it leads to. That each box has its wires and that each wire
/// leads to a box is known by its type.
#[derive(Drop)]
pub struct Schedule {
    boxes: Vec<BoxKind>,
    wires: Vec<Vec<u32>>,
}

impl Model for Schedule {
    ghost use Rattle.std.specs.Prelude.{◌≡◌, None, map};
    ghost use Rattle.rw_sched.specs.Schedules.{ScheduleLists};
    ghost use Rattle.rw_sched.specs.ScheduleFaults.{wire_fault};

    ghost Value = { ScheduleLists };

    ghost view = { λ schedule. record {
      boxes = schedule.boxes.items;
      wires = map (λ list. list.items) schedule.wires.items;
    } };

    ghost invariant = { λ schedule. wire_fault (record { boxes = schedule.boxes.items; wires = map (λ list. list.items) schedule.wires.items }) ≡ None };
}

impl Schedule {
    /// Builds a schedule over so many rules and kept lists. The first condition that fails is answered, at its least
    /// place. It takes no memory.
    pub fn build(
        boxes: Vec<BoxKind>,
        wires: Vec<Vec<u32>>,
        rules: usize,
        lists: usize,
    ) -> Result<Schedule, WireFault>
        ensures { BuildsSchedule rules lists (record { boxes = boxes.items; wires = map (λ list. list.items) wires.items }) result }
    {
        match fault_of(boxes.as_slice(), wires.as_slice(), rules, lists) {
            Some(fault) => Err(fault),
            None => Ok(Schedule { boxes, wires }),
        }
    }

    /// The schedule of boxes and wires in which a reader found no fault.
    pub fn of_checked(boxes: Vec<BoxKind>, wires: Vec<Vec<u32>>) -> Schedule
        requires { wire_fault (record { boxes = boxes.items; wires = map (λ list. list.items) wires.items }) ≡ None }
        ensures { result ≡ record { boxes = boxes.items; wires = map (λ list. list.items) wires.items } }
    {
        Schedule { boxes, wires }
    }

    /// The number of boxes.
    pub fn len(&self) -> usize
        ensures value { result ≡ length self.now.boxes }
        ensures some { 0 < result }
    {
        self.boxes.len()
    }

    /// The box at a place.
    pub fn kind(&self, place: u32) -> &BoxKind
        requires { place < length self.now.boxes }
        ensures kind { result.now ≡ box_at self.now place }
        ensures within { is_box result.now ≡ true }
    {
        &self.boxes[place as usize]
    }

    /// The box that a port of the box at a place leads to.
    pub(crate) fn wire(&self, place: u32, port: usize) -> u32
        requires place { place < length self.now.boxes }
        requires port { port < ports_at self.now place }
        ensures wire { result ≡ wire_at self.now place port }
        ensures within { result < length self.now.boxes }
    {
        wire_of(self.wires.as_slice(), place as usize, port)
    }
}

/// The number that stands at a place of the list at a place.
fn wire_of(wires: &[Vec<u32>], place: usize, port: usize) -> u32
    requires place { place < length wires.now }
    requires port { port < length (list_at (map (λ list. list.items) wires.now) place) }
    ensures { result ≡ slice_index (list_at (map (λ list. list.items) wires.now) place) port }
{
    wires[place].as_slice()[port]
}
