//! The run of a schedule, written to a sink line by line.

ghost use Rattle.std.specs.Prelude.{◌≡◌, ◌<◌, ◌-◌, ◌++◌, ℕ, OnOk};
ghost use Rattle.rw_pick.specs.Words.{after_words, word_of};
ghost use Rattle.rw_sched.specs.Schedules.{box_at};
ghost use Rattle.rw_sched.specs.Machine.{StandsIn};
ghost use Rattle.rw_outside.specs.Faults.{Rose};
ghost use Rattle.rw_runs.specs.OneRun.{HasOneRun};
ghost use Rattle.rw_runs.specs.Runs.{State, start, Fires};
ghost use Rattle.rw_runner.specs.Endings.{EndsRun, IsWhole, GoesOn, Finishes, count_after_run, end_of};

use crate::close::{Close, Stop, close_at};
use crate::world::World;
use rw_outside::{Buffer, Sink};
use rw_pick::Words;
use rw_sched::{SchedState, Schedule};
use rw_steps::Steps;
use std::alloc::Global;
use std::sync::ledger::Ledger;

/// How many bytes wait at most before they are written, where a caller has no number of its own.
pub const PIECE: usize = 65_536;

/// Runs the schedule with so much fuel and the words of the seed, and writes the line of each firing behind those before it.
/// At most `room` bytes wait, and none when the run ends; a line that is longer is written at once. Where the sink fails or
/// memory runs out the run goes on no more, and what was written is a beginning of its text. The readings of the instance
/// are counted.
pub fn run<W: World, K: Sink, L: Ledger>(
    alloc: Global,
    schedule: &Schedule,
    fuel: u32,
    seed: u64,
    world: W,
    room: usize,
    sink: &mut K,
    steps: &mut Steps<L>,
) -> Result<Close, Stop>
    requires { W.is_sound schedule.now world }
    ensures ends { EndsRun W.step_relation (word_of seed) schedule.now W.lines (start schedule.now fuel world) (K.held sink.old) (K.held sink.new) result }
    ensures complete { ¬ Rose (K.faults sink.old) (K.faults sink.new) → IsWhole W.step_relation (word_of seed) schedule.now W.lines (start schedule.now fuel world) (K.held sink.old) (K.held sink.new) result }
    ensures faults { K.faults sink.new ≡ count_after_run (K.faults sink.old) result }
{
    run_loop(alloc, schedule, fuel, seed, world, room, sink, steps)
}

/// From each state there is exactly one run, so its text is determined. The call does nothing: its contract is the law.
pub fn has_one_run<W: World>(schedule: &Schedule, fuel: u32, seed: u64, world: &W)
    requires { W.is_sound schedule.now world.now }
    ensures { HasOneRun W.step_relation (word_of seed) schedule.now (start schedule.now fuel world.now) }
{}

/// Fires boxes until the run ends.
fn run_loop<W: World, K: Sink, L: Ledger>(
    alloc: Global,
    schedule: &Schedule,
    fuel: u32,
    seed: u64,
    world: W,
    room: usize,
    sink: &mut K,
    steps: &mut Steps<L>,
) -> Result<Close, Stop>
    requires { W.is_sound schedule.now world }
    ensures ends { EndsRun W.step_relation (word_of seed) schedule.now W.lines (start schedule.now fuel world) (K.held sink.old) (K.held sink.new) result }
    ensures faults { K.faults sink.new ≡ count_after_run (K.faults sink.old) result }
{
    let mut state = SchedState::new(alloc, schedule, fuel)?;
    let mut buffer = Buffer::new(alloc, room)?;
    let mut words = Words::from_seed(seed);
    let mut present = world;
    loop {
        let kind = schedule.kind(state.place());
        if let Some(close) = close_at(kind, state.fuel()) {
            return finish(alloc, close, state.fuel(), &present, buffer, sink, steps);
        }
        go_on(
            alloc,
            schedule,
            &mut state,
            &mut words,
            &mut present,
            &mut buffer,
            sink,
            steps,
        )?;
    }
}

/// The box at which the schedule stands fires.
fn go_on<W: World, K: Sink, L: Ledger>(
    alloc: Global,
    schedule: &Schedule,
    state: &mut SchedState,
    words: &mut Words,
    world: &mut W,
    buffer: &mut Buffer,
    sink: &mut K,
    steps: &mut Steps<L>,
) -> Result<(), Stop>
    requires stands { StandsIn schedule.now state.old }
    requires fuel { 0 < state.old.fuel }
    requires fires { Fires (box_at schedule.now state.old.place) }
    requires sound { W.is_sound schedule.now world.old }
    requires words { (seed : ℕ) × ((taken : ℕ) × (words.old ≡ after_words seed taken)) }
    ensures on { (seed taken : ℕ) → words.old ≡ after_words seed taken
        → GoesOn W.step_relation seed schedule.now W.lines (record { standing = state.old; words = taken; rows = world.old }) (K.held sink.old) (K.held sink.new) buffer.old buffer.new state.new words.new world.new result }
    ensures stands { OnOk result (StandsIn schedule.now state.new) }
    ensures fuel { OnOk result (state.new.fuel ≡ state.old.fuel - 1) }
    ensures faults { K.faults sink.new ≡ count_after_run (K.faults sink.old) result }
{
    let place = state.place();
    let fired = world.fire(alloc, place, schedule.kind(place), words, steps)?;
    buffer.put(sink, fired.line.as_slice())?;
    state.next(schedule, fired.outcome);
    Ok(())
}

/// Writes the line of the end, and all that waits.
fn finish<W: World, K: Sink, L: Ledger>(
    alloc: Global,
    close: Close,
    fuel: u32,
    world: &W,
    buffer: Buffer,
    sink: &mut K,
    steps: &mut Steps<L>,
) -> Result<Close, Stop>
    ensures ends { (state : State W) → state.rows ≡ world.now → fuel ≡ state.standing.fuel
        → Finishes (buffer ++ W.lines.last (end_of close) state) (K.held sink.old) (K.held sink.new) close result }
    ensures faults { K.faults sink.new ≡ count_after_run (K.faults sink.old) result }
{
    let mut waiting = buffer;
    let line = world.last_line(alloc, close, fuel, steps)?;
    waiting.put(sink, line.as_slice())?;
    waiting.flush(sink)?;
    Ok(close)
}
