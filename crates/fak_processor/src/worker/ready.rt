//! How processes enter and leave the ready queue, and slots the free queue.

ghost use Rattle.std.specs.Prelude.{◌≡◌, ◌+◌, [], ◌∷◌, Bool, ℕ, None, true, IfOk, IfErr, OnErr, MatchOption, MatchResult};
ghost use Rattle.fak_model.specs.Queue.{contents};
ghost use Rattle.fak_run.specs.ListScheduler as lists;
ghost use Rattle.fak_processor.specs.Asking.{looks_of};
ghost use Rattle.fak_processor.specs.Faults.{HasSpentSeat, IsSpent};
ghost use Rattle.fak_processor.specs.Processors.{IsAlone, GoesOn, GoesTo, HasNoSlot, TakesFreeSlot, lists_of};
ghost use Rattle.fak_model.specs.declared.queue.Kind.TheVariants.{Close};
ghost use Rattle.fak_queue.specs.Queues.{kinds_out};
ghost use Rattle.fak_run.specs.Ledger.{nothing};
ghost use Rattle.fak_processor.specs.Events.{empty};
ghost use Rattle.fak_processor.specs.Moving.{EntersCredited, Gains, Moves, hand_of};
ghost use Rattle.fak_processor.specs.Steps.{BecomesReady, MakesStep};

use crate::fault::StepFault;
use crate::station::Station;
use crate::worker::Worker;
use crate::worker::entering::{enter, put, shut, take};
use crate::worker::turn::Turn;
use fak_count::Worn;
use fak_run::{Context, Run, Slot};
use std::alloc::AllocError;
use std::sync::Wait;

impl<'r, K: Run, P: Station> Worker<'r, K, P> {
    /// The front of the ready queue gets the processor.
    ///
    /// # Errors
    ///
    /// `Worn`, if the seat at the queue has no calls left.
    pub fn take_front<R: Wait>(&mut self, rt: &R) -> Result<Option<Turn<K>>, Worn>
        ensures general { IfOk result (λ running. Moves K.script [] (hand_of running) self.old self.new) }
        ensures alone { IsAlone K.script self.old → IfOk result (λ running. GoesOn K.script self.new running
            (lists.take_front (lists_of K.script self.old) (contents self.old.ready.seen))) }
        ensures looks { IfOk result (λ _. looks_of self.new.ready ≡ looks_of self.old.ready + 1) }
        ensures spent { IfErr result (λ _. IsSpent self.new.ready) }
    {
        let objects = self.objects;
        let seats = &mut self.seats;
        match take(&objects.ready, rt, &mut seats.ready) {
            Err(worn) => return Err(worn),
            Ok(None) => return Ok(None),
            Ok(Some(context)) => return Ok(Some(Turn::new(context))),
        }
    }

    /// Reserves memory for one more halted process.
    pub fn reserve_halted(&mut self) -> Result<(), AllocError>
        ensures same { self.new ≡ self.old }
    {
        let seats = &mut self.seats;
        seats.halted.reserve(1)
    }

    /// A process becomes ready, or halts if the ready queue is shut.
    ///
    /// # Errors
    ///
    /// `Memory` or `Worn`, in this order.
    pub fn enter_ready<R: Wait>(&mut self, rt: &R, context: Context<K>) -> Result<(), StepFault>
        ensures step { MakesStep K.script (context ∷ []) (λ _. []) self.old self.new result }
        ensures alone { IsAlone K.script self.old
            → IfOk result (λ _. GoesTo K.script self.new (lists.enter_ready (lists_of K.script self.old) context)) }
        ensures busy { OnErr result (self.new.busy ≡ self.old.busy) }
    {
        // Only the proof needs the slot: reading it shows that the context fits the script.
        let _slot = context.slot();
        let objects = self.objects;
        let seats = &mut self.seats;
        seats.halted.reserve(1)?;
        match enter(&objects.ready, rt, &mut seats.ready, context) {
            Err(Worn) => return Err(StepFault::Worn),
            Ok(None) => return Ok(()),
            Ok(Some(back)) => {
                seats.halted.push(back)?;
                self.debit()?;
                return Ok(());
            }
        }
    }

    /// A process that slept or is new becomes ready. It is counted as busy before any processor can take it.
    ///
    /// # Errors
    ///
    /// `Memory` or `Worn`. If the count has no calls left, the process has not entered the queue.
    pub fn make_ready<R: Wait>(&mut self, rt: &R, context: Context<K>) -> Result<(), StepFault>
        ensures step { MatchResult result (λ _. BecomesReady K.script context self.old self.new)
            (λ fault. fault ≡ StepFault.Worn → HasSpentSeat self.new) }
        ensures alone { IsAlone K.script self.old
            → IfOk result (λ _. GoesTo K.script self.new (lists.enter_ready (lists_of K.script self.old) context)) }
        ensures credited { OnErr result (EntersCredited self.old self.new) }
    {
        self.credit()?;
        self.enter_ready(rt, context)
    }

    /// A process ends, and its slot goes to the back of the free slots.
    ///
    /// # Errors
    ///
    /// `Memory` or `Worn`, in this order.
    pub fn end<R: Wait>(&mut self, rt: &R, context: Context<K>) -> Result<(), StepFault>
        requires over { lists.next_step K.script context ≡ None }
        ensures step { MakesStep K.script (context ∷ []) (λ _. []) self.old self.new result }
        ensures alone { IsAlone K.script self.old → IfOk result (λ _. GoesTo K.script self.new
            (lists.end_process (lists_of K.script self.old) context).lists) }
        ensures busy { OnErr result (self.new.busy ≡ self.old.busy) }
    {
        let slot = Slot::new(context.slot());
        let objects = self.objects;
        let seats = &mut self.seats;
        seats.ended.push(context)?;
        put(&objects.free, rt, &mut seats.free, slot)?;
        self.debit()?;
        Ok(())
    }

    /// Takes the front of the free slots, if there is one.
    ///
    /// # Errors
    ///
    /// `Worn`, if the seat at the slots has no calls left.
    pub fn take_slot<R: Wait>(&mut self, rt: &R) -> Result<Option<Slot<K>>, Worn>
        ensures same { self.new ≡ record self.old { free = self.new.free } }
        ensures gains { IfOk result (λ slot. MatchOption slot
            ((late : Bool) × Gains K.script self.old self.new (record nothing { free = empty late }))
            (λ n. (ticket : ℕ) × Gains K.script self.old self.new (record nothing { free = kinds_out ticket n }))) }
        ensures alone { IsAlone K.script self.old
            → IfOk result (λ slot. MatchOption slot (HasNoSlot K.script (lists_of K.script self.old) self.new)
            (λ n. TakesFreeSlot K.script (lists_of K.script self.old) n self.new)) }
        ensures spent { IfErr result (λ _. IsSpent self.new.free) }
    {
        let objects = self.objects;
        let seats = &mut self.seats;
        take(&objects.free, rt, &mut seats.free)
    }

    /// Shuts the ready queue.
    pub fn shut_ready(&mut self)
        ensures gains { Gains K.script self.old self.new (record nothing { ready = Close ∷ [] }) }
        ensures looks { looks_of self.new.ready ≡ looks_of self.old.ready }
        ensures alone { IsAlone K.script self.old → GoesTo K.script self.new
            (record (lists_of K.script self.old) { is_shut = true }) }
    {
        let objects = self.objects;
        let seats = &mut self.seats;
        shut(&objects.ready, &mut seats.ready);
    }
}
