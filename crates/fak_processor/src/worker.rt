//! A processor at its station: its steps, as calls that know their run.

ghost use Rattle.std.specs.Prelude.{◌≡◌, ◌<◌, [], ◌∷◌, true, false, IfOk, IfErr, OnErr};
ghost use Rattle.fak_model.specs.declared.credit.CreditKind.TheVariants as made;
ghost use Rattle.fak_count.specs.Credits.{calls_made};
ghost use Rattle.fak_run.specs.Gates.{IsRefused};
ghost use Rattle.fak_run.specs.Ledger.{nothing};
ghost use Rattle.fak_run.specs.ListScheduler as lists;
ghost use Rattle.fak_run.specs.Whole.{begun_names};
ghost use Rattle.fak_processor.specs.Asking.{HasAsked};
ghost use Rattle.fak_processor.specs.Begun.{Begins, empty_lists};
ghost use Rattle.fak_processor.specs.Faults.{HasSpentSeat};
ghost use Rattle.fak_processor.specs.Moving.{Gains, IsCredited, LeavesNone};
ghost use Rattle.fak_processor.specs.Processors.{AreOf, GoesTo, IsAlone, IsReached, ProcessorOf, lists_of};

mod births;
mod entering;
mod ready;
mod run_loop;
mod sleeping;
mod starting;
mod steps;
mod turn;

use crate::fault::{LoopFault, StepFault};
use crate::objects::Objects;
use crate::processor::Processor;
use crate::seats::Seats;
use crate::station::Station;
use fak_count::Worn;
use fak_run::{Gate, Run};
use fak_text::Script;
use std::alloc::Global;
use std::marker::{Model, PhantomData};
use std::sync::Wait;

/// A processor at work. Its type names its run and its station, so what it shares with the others stays the same in all
/// of its steps. Contracts see only its seats.
pub(crate) struct Worker<'r, K: Run, P: Station> {
    objects: &'r Objects<K>,
    script: &'r Script,
    alloc: Global,
    number: u64,
    seats: Seats<K>,
    station: PhantomData<P>,
}

impl<'r, K: Run, P: Station> Model for Worker<'r, K, P> {
    ghost use Rattle.std.specs.Prelude.{◌≡◌};
    ghost use Rattle.fak_processor.specs.Processors.{AreOf, ProcessorOf};

    ghost Value = { ProcessorOf };

    ghost view = { λ w. w.seats };

    ghost invariant = { λ w. AreOf w.objects.now w.seats × (w.objects.now ≡ P.objects)
        × (w.number ≡ P.number) × (w.script.now ≡ K.script) };
}

impl<'r, K: Run, P: Station> Worker<'r, K, P> {
    /// This processor, at work.
    fn of(processor: Processor<'r, K>) -> Worker<'r, K, P>
        requires objects { processor.objects.now ≡ P.objects }
        requires number { processor.number ≡ P.number }
        ensures seats { result ≡ processor.entry.seats }
    {
        let Processor {
            objects,
            script,
            alloc,
            number,
            seats,
        } = processor;
        Worker {
            objects,
            script,
            alloc,
            number,
            seats,
            station: PhantomData,
        }
    }

    /// Its seats.
    fn into_seats(self) -> Seats<K>
        ensures same { result ≡ self.entry }
        ensures are { AreOf P.objects result }
    {
        let Worker {
            objects: _,
            script: _,
            alloc: _,
            number: _,
            seats,
            station: _,
        } = self;
        seats
    }

    /// Counts one process more that is ready or runs. This step comes before the process enters the ready queue: another
    /// processor that finds the queue empty and the count at 0 leaves.
    ///
    /// # Errors
    ///
    /// `Worn`, if the seat at the count has no calls left.
    pub fn credit(&mut self) -> Result<(), Worn>
        ensures same { self.new ≡ record self.old { busy = self.new.busy } }
        ensures gains { IfOk result (λ _. Gains K.script self.old self.new
            (record nothing { busy = made.Credit ∷ [] })) }
        ensures credited { IfOk result (λ _. IsCredited self.old self.new) }
        ensures alone { IsAlone K.script self.old → GoesTo K.script self.new (lists_of K.script self.old) }
        ensures spent { IfErr result (λ _. calls_made self.new.busy ≡ self.new.busy.stint) }
    {
        let objects = self.objects;
        let seats = &mut self.seats;
        let Ok(_) = objects.busy.credit(&mut seats.busy) else {
            return Err(Worn);
        };
        Ok(())
    }

    /// Counts one process fewer that is ready or runs. This step comes last, after the process has ended, halted or fallen
    /// asleep: while it is counted, no processor leaves.
    ///
    /// # Errors
    ///
    /// `Worn`, if the seat at the count has no calls left.
    pub fn debit(&mut self) -> Result<(), Worn>
        ensures same { self.new ≡ record self.old { busy = self.new.busy } }
        ensures gains { IfOk result (λ _. Gains K.script self.old self.new
            (record nothing { busy = made.Debit ∷ [] })) }
        ensures kept { OnErr result (self.new ≡ self.old) }
        ensures alone { IsAlone K.script self.old → GoesTo K.script self.new (lists_of K.script self.old) }
        ensures spent { IfErr result (λ _. calls_made self.new.busy ≡ self.new.busy.stint) }
    {
        let objects = self.objects;
        let seats = &mut self.seats;
        let Ok(_) = objects.busy.debit(&mut seats.busy) else {
            return Err(Worn);
        };
        Ok(())
    }
}

/// What `Processor::begin` does, at a station that the type names.
pub(crate) fn begin_at<K: Run, P: Station, R: Wait>(
    rt: &R,
    processor: Processor<'_, K>,
) -> (Seats<K>, Result<(), StepFault>)
    requires objects { processor.objects.now ≡ P.objects }
    requires number { processor.number ≡ P.number }
    ensures seats { AreOf P.objects result.0 }
    ensures general { IfOk result.1 (λ _. Begins K.script [] [] (lists.numbers_from 0 K.script.slots)
        (begun_names 0 K.script.start) processor.entry.seats result.0) }
    ensures alone { GoesTo K.script processor.entry.seats (empty_lists K.script)
        → IfOk result.1 (λ _. IsReached K.script result.0 (lists.turn_over (lists_of K.script result.0))) }
    ensures spent { IfErr result.1 (λ fault. fault ≡ StepFault.Worn → HasSpentSeat result.0) }
{
    let mut worker: Worker<'_, K, P> = Worker::of(processor);
    let begun = worker.begin(rt);
    (worker.into_seats(), begun)
}

/// What `Processor::work` does, at a station that the type names.
pub(crate) fn work_at<K: Run, P: Station, R: Wait, G: Gate>(
    rt: &R,
    gate: &G,
    processor: Processor<'_, K>,
) -> (Seats<K>, Result<bool, LoopFault>)
    requires objects { processor.objects.now ≡ P.objects }
    requires number { processor.number ≡ P.number }
    ensures seats { AreOf P.objects result.0 }
    ensures general { IfOk result.1 (λ done. done ≡ true → LeavesNone K.script processor.entry.seats result.0) }
    ensures stopped { IfOk result.1 (λ done. done ≡ false → 1 < P.objects.ready.object.seats) }
    ensures alone { IsReached K.script processor.entry.seats
        (lists.turn_over (lists_of K.script processor.entry.seats))
        → IfOk result.1 (λ done. done ≡ true → IsReached K.script result.0
        (lists.turn_over (lists_of K.script result.0)) × ((lists_of K.script result.0).ready ≡ [])) }
    ensures passed { IfOk result.1 (λ done. done ≡ true → G.answers gate.now P.number 0 true) }
    ensures asked { IfOk result.1 (λ _. HasAsked (G.answers gate.now P.number) processor.entry.seats.ready
        result.0.ready) }
    ensures refused { IfErr result.1 (λ fault. fault ≡ LoopFault.Gate
        → (G.refuses gate.now ≡ true) × IsRefused (G.answers gate.now P.number)) }
    ensures spent { IfErr result.1 (λ fault. fault ≡ LoopFault.Step StepFault.Worn → HasSpentSeat result.0) }
{
    let objects = processor.objects;
    let mut worker: Worker<'_, K, P> = Worker::of(processor);
    let done = worker.run_loop(rt, gate);
    if done.is_err() {
        objects.alarm.ring();
    }
    (worker.into_seats(), done)
}
