//! What a run needs of the state that its boxes change.

ghost use Rattle.std.specs.Prelude.{◌≡◌, ℕ, IfOk};
ghost use Rattle.rw_pick.specs.Words.{after_words};
ghost use Rattle.rw_sched.specs.Schedules.{ScheduleLists, box_at};
ghost use Rattle.rw_runs.specs.Steps.{Steps};
ghost use Rattle.rw_runs.specs.Runs.{State, Fires};
ghost use Rattle.rw_runs.specs.Texts.{Lines};
ghost use Rattle.rw_runs.specs.Verdicts.{HasVerdicts};
ghost use Rattle.rw_runner.specs.Endings.{HasHappened, end_of};

use crate::close::Close;
use rw_pick::Words;
use rw_sched::{BoxKind, Outcome};
use rw_schema::OutOfMemory;
use rw_steps::Steps;
use std::alloc::Global;
use std::sync::ledger::Ledger;

/// What a firing gives: what it comes to, and its line.
#[derive(Drop)]
pub struct Fired {
    pub outcome: Outcome,
    pub line: Vec<u8>,
}

/// A state of rewriting whose boxes fire.
pub trait World: Drop {
    /// What a match's obstruction is.
    type Obstruction;

    ghost step_relation: { Steps Self Self.Obstruction };

    ghost lines: { Lines Self Self.Obstruction };

    ghost is_sound: { ScheduleLists → Self → Type 0 };

    /// The box at a place of a schedule fires, over which the state is sound.
    fn fire<L: Ledger>(
        &mut self,
        alloc: Global,
        place: u32,
        kind: &BoxKind,
        words: &mut Words,
        steps: &mut Steps<L>,
    ) -> Result<Fired, OutOfMemory>
        requires fires { Fires kind.now }
        requires known { (schedule : ScheduleLists) × (is_sound schedule self.old × (kind.now ≡ box_at schedule place)) }
        ensures { (seed : ℕ) → (state : State Self) → state.rows ≡ self.old → words.old ≡ after_words seed state.words → place ≡ state.standing.place
            → IfOk result (λ fired. HasHappened step_relation seed lines kind.now state self.new words.new fired.outcome fired.line.items) };

    /// The line of the end.
    fn last_line<L: Ledger>(
        &self,
        alloc: Global,
        close: Close,
        fuel: u32,
        steps: &mut Steps<L>,
    ) -> Result<Vec<u8>, OutOfMemory>
        ensures { (state : State Self) → state.rows ≡ self.now → fuel ≡ state.standing.fuel → IfOk result (λ line. line.items ≡ lines.last (end_of close) state) };

    ghost verdicts: { (schedule : ScheduleLists) → HasVerdicts step_relation (is_sound schedule) schedule };
}
