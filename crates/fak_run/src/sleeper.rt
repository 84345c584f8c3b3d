//! A process that sleeps at a semaphore.

ghost use Rattle.std.specs.Prelude.{◌≡◌, ℕ, IfOk};
ghost use Rattle.fak_text.specs.Script.{down};
ghost use Rattle.fak_text.specs.Journal.{FitsScript, StandsAt, after_note, downed};

use crate::context::{Context, Run};
use fak_text::Note;
use std::alloc::AllocError;
use std::fmt;
use std::marker::Model;

/// A process before a down. The note of the down is written when the process falls asleep, so that waking it allocates
/// nothing. Contracts see the process without that note.
#[derive(Drop)]
pub struct Sleeper<K: Run> {
    context: Context<K>,
    semaphore: u64,
}

impl<K: Run> Model for Sleeper<K> {
    ghost use Rattle.fak_text.specs.Journal.{Process};
    ghost use Rattle.fak_run.specs.Contexts.{IsAsleep, unnoted};

    ghost Value = { Process };

    ghost view = { λ s. unnoted s.context };

    ghost invariant = { λ s. IsAsleep K.script s.semaphore s.context };
}

impl<K: Run> Sleeper<K> {
    /// The process, asleep before a down of this semaphore.
    pub fn new(context: Context<K>, semaphore: u64) -> Result<Sleeper<K>, AllocError>
        requires { StandsAt K.script context (down semaphore) }
        ensures same { IfOk result (λ sleeper. sleeper ≡ context) }
    {
        let mut context = context;
        context.note(Note::Down(semaphore))?;
        Ok(Sleeper { context, semaphore })
    }

    /// The process after it was woken, with the down done.
    pub fn rouse(self) -> Context<K>
        ensures woken { (semaphore : ℕ) × StandsAt K.script self (down semaphore)
            × (result ≡ after_note self (downed semaphore)) }
        ensures done { (semaphore : ℕ) → StandsAt K.script self (down semaphore)
            → result ≡ after_note self (downed semaphore) }
        ensures fits { FitsScript K.script self }
    {
        let Sleeper {
            context,
            semaphore: _,
        } = self;
        // For the proof only: reading the slot shows that the context fits the script.
        let _slot = context.slot();
        context
    }

    /// The process as it was before its down.
    pub fn rest(self) -> Context<K>
        ensures same { result ≡ self }
        ensures fits { FitsScript K.script self }
        ensures stands { (semaphore : ℕ) × StandsAt K.script self (down semaphore) }
    {
        let Sleeper {
            context,
            semaphore: _,
        } = self;
        let rested = context.without_down();
        // For the proof only: reading the slot shows that the context fits the script.
        let _slot = rested.slot();
        rested
    }
}

impl<K: Run> fmt::Debug for Sleeper<K> {
    fn fmt<W: fmt::Write>(&self, f: &mut fmt::Formatter<W>) -> fmt::Result {
        f.debug_struct("Sleeper")
            .field("context", &self.context)
            .field("semaphore", &self.semaphore)
            .finish()
    }
}
