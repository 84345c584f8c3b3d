//! A processor of a run: what it shares with the others, and its seats.

ghost use Rattle.std.specs.Prelude.{◌≡◌, ◌<◌, [], true, false, IfOk, IfErr};
ghost use Rattle.fak_run.specs.Gates.{IsRefused};
ghost use Rattle.fak_run.specs.ListScheduler as lists;
ghost use Rattle.fak_run.specs.Whole.{begun_names};
ghost use Rattle.fak_processor.specs.Asking.{HasAsked};
ghost use Rattle.fak_processor.specs.Begun.{Begins, empty_lists};
ghost use Rattle.fak_processor.specs.Faults.{HasSpentSeat};
ghost use Rattle.fak_processor.specs.Moving.{LeavesNone};
ghost use Rattle.fak_processor.specs.Processors.{AreFor, AreOf, GoesTo, IsReached, lists_of};

use crate::fault::{LoopFault, StepFault};
use crate::objects::Objects;
use crate::seats::Seats;
use crate::worker::{begin_at, work_at};
use fak_run::{Gate, Run};
use fak_text::Script;
use std::alloc::Global;
use std::fmt;
use std::marker::Brand;
use std::sync::Wait;

/// A processor of a run: its number, its seats, and the script and the objects of the run. The type keeps that they
/// belong together, so its calls require nothing.
#[derive(Drop)]
pub struct Processor<'r, K: Run> {
    /// What all processors of the run share.
    pub objects: &'r Objects<K>,
    /// The script of the run.
    pub script: &'r Script,
    /// What its contexts are allocated with.
    pub alloc: Global,
    /// Its number.
    pub number: u64,
    /// Its seats. Each belongs to one of the objects, and is idle.
    pub seats: Seats<K>,
    pub ghost made: { AreFor K.script objects.now },
    pub ghost are: { AreOf objects.now seats },
    pub ghost script_is: { script.now ≡ K.script },
}

impl<'r, K: Run> Processor<'r, K> {
    /// The processor of this number with these seats, in the run of this script with these objects.
    pub fn new(
        objects: &'r Objects<K>,
        script: &'r Script,
        alloc: Global,
        number: u64,
        seats: Seats<K>,
    ) -> Processor<'r, K>
        requires script { script.now ≡ K.script }
        requires seats { AreOf objects.now seats }
        ensures objects { result.objects.now ≡ objects.now }
        ensures number { result.number ≡ number }
        ensures seats { result.seats ≡ seats }
    {
        // Only the proof needs this field: naming it shows that the objects were opened for this script.
        let _ready = &objects.ready;
        Processor {
            objects,
            script,
            alloc,
            number,
            seats,
        }
    }

    /// All slots of the script become free and its started processes become ready, in order. Returns the seats.
    ///
    /// # Errors
    ///
    /// `Memory`, and `Worn` only if a seat of the processor has used up its stint.
    pub fn begin<R: Wait>(self, rt: &R) -> (Seats<K>, Result<(), StepFault>)
        ensures seats { AreOf self.entry.objects.now result.0 }
        ensures general { IfOk result.1 (λ _. Begins K.script [] [] (lists.numbers_from 0 K.script.slots)
            (begun_names 0 K.script.start) self.entry.seats result.0) }
        ensures alone { GoesTo K.script self.entry.seats (empty_lists K.script)
            → IfOk result.1 (λ _. IsReached K.script result.0 (lists.turn_over (lists_of K.script result.0))) }
        ensures spent { IfErr result.1 (λ fault. fault ≡ StepFault.Worn → HasSpentSeat result.0) }
    {
        begin_at::<K, Brand, R>(rt, self)
    }

    /// Works in the run: gives turns to ready processes until no process is ready or runs. Returns the seats, and false
    /// if another processor has met a fault.
    ///
    /// # Errors
    ///
    /// `Memory`. `Worn`, only if a seat of the processor has used up its stint. `Gate`, only if the gate may refuse, and
    /// refused a look of this processor after it let those before pass; looks are counted from 0. The alarm then stops
    /// the other processors.
    pub fn work<R: Wait, G: Gate>(self, rt: &R, gate: &G) -> (Seats<K>, Result<bool, LoopFault>)
        ensures seats { AreOf self.entry.objects.now result.0 }
        ensures general { IfOk result.1 (λ done. done ≡ true → LeavesNone K.script self.entry.seats result.0) }
        ensures stopped { IfOk result.1 (λ done. done ≡ false → 1 < self.entry.objects.now.ready.object.seats) }
        ensures alone { IsReached K.script self.entry.seats (lists.turn_over (lists_of K.script self.entry.seats))
            → IfOk result.1 (λ done. done ≡ true → IsReached K.script result.0
            (lists.turn_over (lists_of K.script result.0)) × ((lists_of K.script result.0).ready ≡ [])) }
        ensures passed { IfOk result.1 (λ done. done ≡ true → G.answers gate.now self.entry.number 0 true) }
        ensures asked { IfOk result.1 (λ _. HasAsked (G.answers gate.now self.entry.number) self.entry.seats.ready
            result.0.ready) }
        ensures refused { IfErr result.1 (λ fault. fault ≡ LoopFault.Gate
            → (G.refuses gate.now ≡ true) × IsRefused (G.answers gate.now self.entry.number)) }
        ensures spent { IfErr result.1 (λ fault. fault ≡ LoopFault.Step StepFault.Worn → HasSpentSeat result.0) }
    {
        work_at::<K, Brand, R, G>(rt, gate, self)
    }
}

impl<'r, K: Run> fmt::Debug for Processor<'r, K> {
    fn fmt<W: fmt::Write>(&self, f: &mut fmt::Formatter<W>) -> fmt::Result {
        f.debug_struct("Processor")
            .field("number", &self.number)
            .field("seats", &self.seats)
            .finish_non_exhaustive()
    }
}
