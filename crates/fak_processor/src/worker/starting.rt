//! What processor 0 does before the threads start: all slots become free, and the started processes become ready.

ghost use Rattle.std.specs.Prelude.{◌≡◌, ◌<◌, [], ◌∷◌, ◌++◌, length, IfOk, IfErr};
ghost use Rattle.fak_processor.specs.Faults.{HasSpentSeat, IsSpent};
ghost use Rattle.fak_run.specs.ListScheduler as lists;
ghost use Rattle.fak_run.specs.Whole.{begun_names};
ghost use Rattle.fak_processor.specs.Processors.{GoesTo, IsAlone, IsReached, TakesFreeSlot, lists_of};
ghost use Rattle.fak_processor.specs.Begun.{Begins, FindsSlot, StartsOne, empty_lists};

use crate::fault::StepFault;
use crate::station::Station;
use crate::worker::Worker;
use crate::worker::entering::put;
use crossbeam_utils::Backoff;
use fak_count::Worn;
use fak_run::{Context, Run, Slot};
use std::sync::Wait;

impl<'r, K: Run, P: Station> Worker<'r, K, P> {
    /// All slots become free and the started processes become ready, in order.
    pub fn begin<R: Wait>(&mut self, rt: &R) -> Result<(), StepFault>
        ensures general { IfOk result (λ _. Begins K.script [] [] (lists.numbers_from 0 K.script.slots)
            (begun_names 0 K.script.start) self.old self.new) }
        ensures alone { GoesTo K.script self.old (empty_lists K.script)
            → IfOk result (λ _. IsReached K.script self.new (lists.turn_over (lists_of K.script self.new))) }
        ensures spent { IfErr result (λ fault. fault ≡ StepFault.Worn → HasSpentSeat self.new) }
    {
        self.free_slots(rt)?;
        self.start_processes(rt)?;
        Ok(())
    }

    /// The slots of the script become free, in order.
    fn free_slots<R: Wait>(&mut self, rt: &R) -> Result<(), Worn>
        ensures general { IfOk result (λ _. Begins K.script [] []
            (lists.numbers_from 0 K.script.slots) [] self.old self.new) }
        ensures alone { GoesTo K.script self.old (empty_lists K.script) → IfOk result (λ _. GoesTo K.script self.new
            (record (empty_lists K.script) { free_slots = lists.numbers_from 0 K.script.slots })) }
        ensures spent { IfErr result (λ _. IsSpent self.new.free) }
    {
        let script = self.script;
        for number in 0..script.slots() {
            self.free_slot(rt, Slot::new(number))?;
        }
        Ok(())
    }

    /// A slot becomes free.
    fn free_slot<R: Wait>(&mut self, rt: &R, slot: Slot<K>) -> Result<(), Worn>
        ensures general { IfOk result (λ _. Begins K.script [] [] (slot ∷ []) [] self.old self.new) }
        ensures alone { IsAlone K.script self.old → IfOk result (λ _. GoesTo K.script self.new (record
            (lists_of K.script self.old) { free_slots = (lists_of K.script self.old).free_slots ++ slot ∷ [] })) }
        ensures spent { IfErr result (λ _. IsSpent self.new.free) }
    {
        let objects = self.objects;
        let seats = &mut self.seats;
        put(&objects.free, rt, &mut seats.free, slot)?;
        Ok(())
    }

    /// The started processes of the script become ready, in order.
    fn start_processes<R: Wait>(&mut self, rt: &R) -> Result<(), StepFault>
        ensures general { IfOk result (λ _. Begins K.script [] [] [] (begun_names 0 K.script.start) self.old self.new) }
        ensures alone { GoesTo K.script self.old (record
            (empty_lists K.script) { free_slots = lists.numbers_from 0 K.script.slots })
            → IfOk result (λ _. GoesTo K.script self.new (lists.first_lists K.script)) }
        ensures spent { IfErr result (λ fault. fault ≡ StepFault.Worn → HasSpentSeat self.new) }
    {
        let script = self.script;
        let mut number = 0;
        for program in script.start() {
            self.start_process(rt, number, *program)?;
            number += 1;
        }
        Ok(())
    }

    /// A process with this name takes the front of the free slots and becomes ready.
    fn start_process<R: Wait>(&mut self, rt: &R, number: u64, program: u64) -> Result<(), StepFault>
        requires program { program < length K.script.programs }
        ensures general { IfOk result (λ _. Begins K.script [] [] [] ((number ∷ [], program) ∷ []) self.old self.new) }
        ensures alone { IsAlone K.script self.old
            → IfOk result (λ _. StartsOne K.script (lists_of K.script self.old) number program self.new) }
        ensures spent { IfErr result (λ fault. fault ≡ StepFault.Worn → HasSpentSeat self.new) }
    {
        let alloc = self.alloc;
        let mut name = Vec::new(alloc);
        name.push(number)?;
        let slot = self.take_first_slot(rt)?;
        let context = Context::new(alloc, name, program, slot.number());
        self.enter_ready(rt, context)?;
        Ok(())
    }

    /// Takes the front of the free slots, and tries again while there is none.
    fn take_first_slot<R: Wait>(&mut self, rt: &R) -> Result<Slot<K>, Worn>
        ensures general { IfOk result (λ slot. FindsSlot K.script slot self.old self.new) }
        ensures alone { IsAlone K.script self.old → IfOk result
            (λ slot. TakesFreeSlot K.script (lists_of K.script self.old) slot self.new) }
        ensures spent { IfErr result (λ _. IsSpent self.new.free) }
    {
        let backoff = Backoff::new();
        for _ in rt.forever() {
            if let Some(slot) = self.take_slot(rt)? {
                return Ok(slot);
            }
            backoff.snooze();
        }
        unreachable!()
    }
}
