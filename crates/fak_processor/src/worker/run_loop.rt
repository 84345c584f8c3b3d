//! The loop of a processor.

ghost use Rattle.std.specs.Prelude.{◌≡◌, ◌≢◌, ℕ, [], ◌∷◌, ◌<◌, ◌≤◌, pos, length, true, false, Some, None, IfOk, IfErr};
ghost use Rattle.fak_text.specs.Script.{IsStepInRange, limits_of};
ghost use Rattle.fak_text.specs.Views.{step_of};
ghost use Rattle.fak_run.specs.ListScheduler as lists;
ghost use Rattle.fak_processor.specs.Asking.{AreAsked, HasAsked};
ghost use Rattle.fak_processor.specs.Faults.{HasSpentSeat};
ghost use Rattle.fak_run.specs.Gates.{IsRefused};
ghost use Rattle.fak_processor.specs.Processors.{IsAlone, GoesOn, GoesTo, IsReached, lists_of};
ghost use Rattle.fak_model.specs.Credit.{value};
ghost use Rattle.fak_model.specs.Queue.{contents};
ghost use Rattle.fak_run.specs.Ledger.{nothing};
ghost use Rattle.fak_processor.specs.Moving.{Gains, LeavesNone, Moves, hand_of};
ghost use Rattle.fak_processor.specs.Steps.{MakesStep, MayMake};

use crate::fault::{LoopFault, StepFault};
use crate::station::Station;
use crate::worker::Worker;
use crate::worker::turn::Turn;
use crossbeam_utils::Backoff;
use fak_run::{Gate, Looks, Run};
use fak_text::{Note, Step};
use std::sync::Wait;

impl<'r, K: Run, P: Station> Worker<'r, K, P> {
    /// The process that has the processor takes this step. Returns its turn, or nothing if it has left the processor.
    fn make<R: Wait>(
        &mut self,
        rt: &R,
        mut turn: Turn<K>,
        step: &Step,
    ) -> Result<Option<Turn<K>>, StepFault>
        requires turn { MayMake K.script turn (step_of step.now) }
        requires range { IsStepInRange (limits_of K.script) (step_of step.now) }
        ensures step { MakesStep K.script (turn.process ∷ []) hand_of self.old self.new result }
        ensures alone { IsAlone K.script self.old → IfOk result (λ running. GoesOn K.script self.new running
            (lists.make K.script (lists_of K.script self.old) turn (step_of step.now))) }
    {
        match step {
            Step::Down(n) => return self.down(rt, turn, *n),
            _ => {
                self.make_and_stay(rt, &mut turn, step)?;
                return Ok(Some(turn));
            }
        }
    }

    /// The process takes this step, any except a down, and keeps the processor.
    fn make_and_stay<R: Wait>(
        &mut self,
        rt: &R,
        turn: &mut Turn<K>,
        step: &Step,
    ) -> Result<(), StepFault>
        requires turn { MayMake K.script turn.old (step_of step.now) }
        requires range { IsStepInRange (limits_of K.script) (step_of step.now) }
        requires stays { (n : ℕ) → step.now ≢ Step.Down n }
        ensures step { MakesStep K.script (turn.old.process ∷ []) (λ _. turn.new.process ∷ []) self.old self.new
            result }
        ensures alone { IsAlone K.script self.old → IfOk result (λ _. GoesOn K.script self.new (Some turn.new)
            (lists.make K.script (lists_of K.script self.old) turn.old (step_of step.now))) }
    {
        match step {
            Step::Down(_) => unreachable!(),
            Step::Say(_) => {
                turn.note_said(self.alloc)?;
                return Ok(());
            }
            Step::Yield => {
                turn.note(Note::Yield, true)?;
                return Ok(());
            }
            Step::Up(n) => return self.up(rt, turn, *n),
            Step::OpenFile(inode) => return self.open_file(rt, turn, *inode),
            Step::CloseFile(inode) => return self.close_file(rt, turn, *inode),
            Step::Stat(inode) => return self.stat(rt, turn, *inode),
            Step::Spawn(program) => return self.spawn(rt, turn, *program),
            Step::Shutdown => {
                self.shutdown(turn)?;
                return Ok(());
            }
        }
    }

    /// Continues a turn. A process without a next step ends. A process whose turn is over becomes ready again. Any other
    /// takes its next step.
    fn continue_turn<R: Wait>(
        &mut self,
        rt: &R,
        turn: Turn<K>,
    ) -> Result<Option<Turn<K>>, StepFault>
        ensures step { MakesStep K.script (turn.process ∷ []) hand_of self.old self.new result }
        ensures alone { IsAlone K.script self.old → IfOk result (λ running. GoesOn K.script self.new running
            (lists.turn_by K.script (lists_of K.script self.old) turn (lists.next_step K.script turn.process))) }
    {
        let script = self.script;
        match turn.context.next(script) {
            None => {
                self.end(rt, turn.into_context())?;
                return Ok(None);
            }
            Some(step) => {
                if !turn.is_over(script) {
                    return self.make(rt, turn, step);
                }
                self.enter_ready(rt, turn.into_context())?;
                return Ok(None);
            }
        }
    }

    /// Passes the gate and then looks at the ready queue, whose front gets the processor.
    fn look<R: Wait, G: Gate>(
        &mut self,
        rt: &R,
        gate: &G,
        looks: &mut Looks,
    ) -> Result<Option<Turn<K>>, LoopFault>
        ensures general { IfOk result (λ running. Moves K.script [] (hand_of running) self.old self.new) }
        ensures alone { IsAlone K.script self.old → IfOk result (λ running. GoesOn K.script self.new running
            (lists.take_front (lists_of K.script self.old) (contents self.old.ready.seen))) }
        ensures number { looks.new.processor ≡ looks.old.processor }
        ensures asked { (before : ℕ)
            → AreAsked (G.answers gate.now looks.old.processor) before self.old.ready looks.old.made
            → IfOk result (λ _. AreAsked (G.answers gate.now looks.old.processor) before self.new.ready
            looks.new.made) }
        ensures looked { 1 ≤ looks.new.made }
        ensures refused { IfErr result (λ fault. fault ≡ LoopFault.Gate → (G.refuses gate.now ≡ true)
            × G.answers gate.now looks.old.processor looks.old.made false) }
        ensures spent { IfErr result (λ fault. fault ≡ LoopFault.Step StepFault.Worn → HasSpentSeat self.new) }
    {
        let Ok(()) = looks.pass(gate) else {
            return Err(LoopFault::Gate);
        };
        Ok(self.take_front(rt)?)
    }

    /// One step of the loop: a look if no process has the processor, otherwise the next step of its process.
    fn step<R: Wait, G: Gate>(
        &mut self,
        rt: &R,
        gate: &G,
        looks: &mut Looks,
        running: Option<Turn<K>>,
    ) -> Result<Option<Turn<K>>, LoopFault>
        ensures general { IfOk result (λ next. Moves K.script (hand_of running) (hand_of next) self.old self.new) }
        ensures alone { IsAlone K.script self.old → IfOk result (λ next. GoesOn K.script self.new next
            (lists.step K.script (record { running = running; lists = lists_of K.script self.old }))) }
        ensures number { looks.new.processor ≡ looks.old.processor }
        ensures asked { (before : ℕ)
            → AreAsked (G.answers gate.now looks.old.processor) before self.old.ready looks.old.made
            → IfOk result (λ _. AreAsked (G.answers gate.now looks.old.processor) before self.new.ready
            looks.new.made) }
        ensures looked { running ≡ None → 1 ≤ looks.new.made }
        ensures refused { IfErr result (λ fault. fault ≡ LoopFault.Gate → (G.refuses gate.now ≡ true)
            × G.answers gate.now looks.old.processor looks.old.made false) }
        ensures spent { IfErr result (λ fault. fault ≡ LoopFault.Step StepFault.Worn → HasSpentSeat self.new) }
    {
        match running {
            None => return self.look(rt, gate, looks),
            Some(turn) => return Ok(self.continue_turn(rt, turn)?),
        }
    }

    /// Tests whether the run is over: nothing ran before the step nor after it, and no process is ready or runs. Once the
    /// count is 0 it stays 0. A process is counted from before it enters the ready queue until after it has ended, halted
    /// or fallen asleep. Only a process that runs makes others ready.
    #[tactic(auto, using(crate::proofs::Moving::gains_none))]
    fn test_done(&mut self, was_idle: bool, running: &Option<Turn<K>>) -> bool
        ensures ready { self.new.ready ≡ self.old.ready }
        ensures gains { Gains K.script self.old self.new nothing }
        ensures alone { IsAlone K.script self.old → GoesTo K.script self.new (lists_of K.script self.old) }
        ensures done { result ≡ true → (was_idle ≡ true) × (running.now ≡ None) }
        ensures idle { result ≡ true → value (length K.script.start) self.new.busy.seen ≡ pos 0 }
    {
        if !was_idle || running.is_some() {
            return false;
        }
        let objects = self.objects;
        let seats = &mut self.seats;
        let shown = objects.busy.value(&mut seats.busy);
        shown == 0
    }

    /// The loop of a processor: it gives turns to ready processes until no process is ready or runs. Returns false if
    /// another processor has met a fault.
    pub fn run_loop<R: Wait, G: Gate>(&mut self, rt: &R, gate: &G) -> Result<bool, LoopFault>
        ensures general { IfOk result (λ done. done ≡ true → LeavesNone K.script self.old self.new) }
        ensures stopped { IfOk result (λ done. done ≡ false → 1 < P.objects.ready.object.seats) }
        ensures alone { IsReached K.script self.old (lists.turn_over (lists_of K.script self.old))
            → IfOk result (λ done. done ≡ true → IsReached K.script self.new
            (lists.turn_over (lists_of K.script self.new)) × ((lists_of K.script self.new).ready ≡ [])) }
        ensures passed { IfOk result (λ done. done ≡ true → G.answers gate.now P.number 0 true) }
        ensures asked { IfOk result (λ _. HasAsked (G.answers gate.now P.number) self.old.ready self.new.ready) }
        ensures refused { IfErr result (λ fault. fault ≡ LoopFault.Gate
            → (G.refuses gate.now ≡ true) × IsRefused (G.answers gate.now P.number)) }
        ensures spent { IfErr result (λ fault. fault ≡ LoopFault.Step StepFault.Worn → HasSpentSeat self.new) }
    {
        let objects = self.objects;
        let mut running = None;
        let mut looks = Looks::new(self.number);
        let backoff = Backoff::new();
        for _ in rt.forever() {
            let was_idle = running.is_none();
            if was_idle && objects.alarm.is_rung() {
                drop(running);
                return Ok(false);
            }
            running = self.step(rt, gate, &mut looks, running)?;
            if self.test_done(was_idle, &running) {
                drop(running);
                return Ok(true);
            }
            pause(&backoff, was_idle, running.is_some());
        }
        unreachable!()
    }
}

/// Backs off after a look at the ready queue that found no process. A turn that begins resets the back-off.
fn pause(backoff: &Backoff, looked: bool, found: bool) {
    if found {
        backoff.reset();
    } else if looked {
        backoff.snooze();
    }
}
