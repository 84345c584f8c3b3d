//! What each step of a script does.

ghost use Rattle.std.specs.Prelude.{◌≡◌, [], ◌∷◌, ◌<◌, length, Some, IfOk, OnErr};
ghost use Rattle.fak_text.specs.Script.{down, up, open_file, close_file, stat, spawn, shutdown};
ghost use Rattle.fak_run.specs.ListScheduler as lists;
ghost use Rattle.fak_processor.specs.Processors.{IsAlone, GoesOn, lists_of};
ghost use Rattle.fak_processor.specs.Moving.{EntersCredited, hand_of};
ghost use Rattle.fak_processor.specs.Steps.{MakesStep, MayMake, Steps};

use crate::fault::StepFault;
use crate::station::Station;
use crate::worker::Worker;
use crate::worker::turn::Turn;
use fak_count::Worn;
use fak_run::{Context, Run, Sleeper};
use fak_text::Note;
use std::alloc::AllocError;
use std::sync::Wait;

impl<'r, K: Run, P: Station> Worker<'r, K, P> {
    /// A down: the process goes on, or sleeps at the semaphore and leaves the processor.
    pub(crate) fn down<R: Wait>(
        &mut self,
        rt: &R,
        turn: Turn<K>,
        n: u64,
    ) -> Result<Option<Turn<K>>, StepFault>
        requires turn { MayMake K.script turn (down n) }
        requires range { n < length K.script.semaphores }
        ensures step { MakesStep K.script (turn.process ∷ []) hand_of self.old self.new result }
        ensures alone { IsAlone K.script self.old → IfOk result (λ running. GoesOn K.script self.new running
            (lists.make_down (lists_of K.script self.old) turn n)) }
        ensures busy { OnErr result (self.new.busy ≡ self.old.busy) }
    {
        let made = turn.made();
        let sleeper = Sleeper::new(turn.into_context(), n)?;
        match self.pass_or_park(rt, n as usize, sleeper) {
            Err(Worn) => return Err(StepFault::Worn),
            Ok(None) => {
                self.debit()?;
                return Ok(None);
            }
            Ok(Some(who)) => return Ok(Some(Turn::after(who.rouse(), made))),
        }
    }

    /// An up: the first sleeper of the semaphore becomes ready, or the count rises.
    pub(crate) fn up<R: Wait>(
        &mut self,
        rt: &R,
        turn: &mut Turn<K>,
        n: u64,
    ) -> Result<(), StepFault>
        requires turn { MayMake K.script turn.old (up n) }
        requires range { n < length K.script.semaphores }
        ensures step { MakesStep K.script (turn.old.process ∷ []) (λ _. turn.new.process ∷ []) self.old self.new
            result }
        ensures alone { IsAlone K.script self.old → IfOk result (λ _. GoesOn K.script self.new (Some turn.new)
            (lists.make_up (lists_of K.script self.old) turn.old n)) }
        ensures credited { OnErr result (EntersCredited self.old self.new) }
    {
        turn.note(Note::Up(n), false)?;
        self.reserve_halted()?;
        match self.wake(rt, n as usize) {
            Err(Worn) => return Err(StepFault::Worn),
            Ok(None) => return Ok(()),
            Ok(Some(context)) => return self.make_ready(rt, context),
        }
    }

    /// A spawn: the child becomes ready, unless a birth or a slot is missing.
    pub(crate) fn spawn<R: Wait>(
        &mut self,
        rt: &R,
        turn: &mut Turn<K>,
        program: u64,
    ) -> Result<(), StepFault>
        requires turn { MayMake K.script turn.old (spawn program) }
        requires range { program < length K.script.programs }
        ensures step { MakesStep K.script (turn.old.process ∷ []) (λ _. turn.new.process ∷ []) self.old self.new
            result }
        ensures alone { IsAlone K.script self.old → IfOk result (λ _. GoesOn K.script self.new (Some turn.new)
            (lists.make_spawn K.script (lists_of K.script self.old) turn.old program)) }
        ensures credited { OnErr result (EntersCredited self.old self.new) }
    {
        let alloc = self.alloc;
        let name = turn.child_name(alloc)?;
        turn.reserve_note()?;
        self.reserve_halted()?;
        if !self.claim_birth()? {
            turn.note(Note::NoBirth, false)?;
            return Ok(());
        }
        let Some(slot) = self.take_slot(rt)? else {
            self.give_birth_back();
            turn.note(Note::NoSlot, false)?;
            return Ok(());
        };
        let number = turn.children();
        let child = Context::new(alloc, name, program, slot.number());
        turn.note(Note::Spawned(number), false)?;
        self.make_ready(rt, child)
    }

    /// An open, in a hold of the file table.
    pub(crate) fn open_file<R: Wait>(
        &mut self,
        rt: &R,
        turn: &mut Turn<K>,
        inode: u64,
    ) -> Result<(), StepFault>
        requires turn { MayMake K.script turn.old (open_file inode) }
        ensures step { MakesStep K.script (turn.old.process ∷ []) (λ _. turn.new.process ∷ []) self.old self.new
            result }
        ensures alone { IsAlone K.script self.old → IfOk result (λ _. GoesOn K.script self.new (Some turn.new)
            (lists.make_open (lists_of K.script self.old) turn.old inode)) }
    {
        turn.reserve_note()?;
        let objects = self.objects;
        let seats = &mut self.seats;
        let entry = seats
            .copy
            .open_shared(rt, &objects.files, &mut seats.files, inode)?;
        turn.note(Note::OpenFile(inode, entry), false)?;
        Ok(())
    }

    /// A close, in a hold of the file table.
    pub(crate) fn close_file<R: Wait>(
        &mut self,
        rt: &R,
        turn: &mut Turn<K>,
        inode: u64,
    ) -> Result<(), StepFault>
        requires turn { MayMake K.script turn.old (close_file inode) }
        ensures step { MakesStep K.script (turn.old.process ∷ []) (λ _. turn.new.process ∷ []) self.old self.new
            result }
        ensures alone { IsAlone K.script self.old → IfOk result (λ _. GoesOn K.script self.new (Some turn.new)
            (lists.make_close (lists_of K.script self.old) turn.old inode)) }
    {
        turn.reserve_note()?;
        let objects = self.objects;
        let seats = &mut self.seats;
        let entry = seats
            .copy
            .close_shared(rt, &objects.files, &mut seats.files, inode)?;
        turn.note(Note::CloseFile(inode, entry), false)?;
        Ok(())
    }

    /// A stat, in a hold of the file table.
    pub(crate) fn stat<R: Wait>(
        &mut self,
        rt: &R,
        turn: &mut Turn<K>,
        inode: u64,
    ) -> Result<(), StepFault>
        requires turn { MayMake K.script turn.old (stat inode) }
        ensures step { MakesStep K.script (turn.old.process ∷ []) (λ _. turn.new.process ∷ []) self.old self.new
            result }
        ensures alone { IsAlone K.script self.old → IfOk result (λ _. GoesOn K.script self.new (Some turn.new)
            (lists.make K.script (lists_of K.script self.old) turn.old (stat inode))) }
    {
        turn.reserve_note()?;
        let objects = self.objects;
        let seats = &mut self.seats;
        let uses = seats
            .copy
            .uses_shared(rt, &objects.files, &mut seats.files, inode)?;
        turn.note(Note::Stat(inode, uses), false)?;
        Ok(())
    }

    /// A shutdown: no process becomes ready any more.
    pub(crate) fn shutdown(&mut self, turn: &mut Turn<K>) -> Result<(), AllocError>
        requires turn { MayMake K.script turn.old shutdown }
        ensures step { IfOk result (λ _. Steps K.script (turn.old.process ∷ []) (turn.new.process ∷ []) self.old
            self.new) }
        ensures alone { IsAlone K.script self.old → IfOk result (λ _. GoesOn K.script self.new (Some turn.new)
            (lists.make K.script (lists_of K.script self.old) turn.old shutdown)) }
    {
        turn.note(Note::Shutdown, false)?;
        self.shut_ready();
        Ok(())
    }
}
