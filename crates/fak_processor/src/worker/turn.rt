//! The turn of the process that has the processor.

ghost use Rattle.std.specs.Prelude.{◌≡◌, ℕ, List, [], ◌∷◌, ◌++◌, ◌+◌, ◌<◌, ◌≤◌, ◌==◌, ◌||◌, false, IfOk};
ghost use Rattle.fak_text.specs.Script.{StepOf, say};
ghost use Rattle.fak_text.specs.Journal.{Allows, FitsScript, StandsAt, after_note, child_count, said};
ghost use Rattle.fak_text.specs.Views.{note_of};
ghost use Rattle.fak_run.specs.ListScheduler as lists;
ghost use Rattle.fak_run.specs.Contexts.{HasStepsLeft};
ghost use Rattle.fak_processor.specs.Steps.{MayMake};

use fak_run::{Context, Run};
use fak_text::{Note, Script};
use std::alloc::{AllocError, Global};
use std::marker::Model;

/// A process that has the processor: how many steps it made in this turn, and whether the last one was a yield.
#[derive(Drop)]
pub struct Turn<K: Run> {
    pub context: Context<K>,
    pub made: u64,
    pub has_yielded: bool,
}

impl<K: Run> Model for Turn<K> {
    ghost use Rattle.std.specs.Prelude.{◌≤◌};
    ghost use Rattle.fak_run.specs.ListScheduler as lists;

    ghost Value = { lists.Turn };

    ghost view = { λ t. record { process = t.context; made = t.made; has_yielded = t.has_yielded } };

    ghost invariant = { λ t. t.made ≤ K.script.quantum };
}

impl<K: Run> Turn<K> {
    /// A turn that begins: its process has made no step in it.
    pub fn new(context: Context<K>) -> Turn<K>
        ensures { result ≡ record { process = context; made = 0; has_yielded = false } }
    {
        Turn {
            context,
            made: 0,
            has_yielded: false,
        }
    }

    /// Reserves memory for one more note.
    pub fn reserve_note(&mut self) -> Result<(), AllocError>
        ensures same { self.new ≡ self.old }
    {
        self.context.reserve_note()
    }

    /// The name of the process's next child.
    pub fn child_name(&self, alloc: Global) -> Result<Vec<u64>, AllocError>
        ensures name { IfOk result (λ name. name.items ≡ self.now.process.name ++ child_count self.now.process.journal
            ∷ []) }
    {
        self.context.child_name(alloc)
    }

    /// The number of the process's next child.
    pub fn children(&self) -> u64
        ensures { result ≡ child_count self.now.process.journal }
    {
        self.context.children()
    }

    /// How many steps were made in the turn.
    pub fn made(&self) -> u64
        ensures made { result ≡ self.now.made }
        ensures fits { FitsScript K.script self.now.process }
    {
        // Only the proof needs the slot: reading it shows that the context fits the script.
        let _slot = self.context.slot();
        self.made
    }

    /// The turn after one step more than `made`. The process has noted that step already, and it is no yield.
    pub fn after(context: Context<K>, made: u64) -> Turn<K>
        requires { (made < K.script.quantum) × (K.script.quantum ≤ 1000) }
        ensures { result ≡ record { process = context; made = made + 1; has_yielded = false } }
    {
        Turn {
            context,
            made: made + 1,
            has_yielded: false,
        }
    }

    /// Notes a step that the process made, and whether it was a yield.
    pub fn note(&mut self, note: Note, yields: bool) -> Result<(), AllocError>
        requires allowed { (step : StepOf) × MayMake K.script self.old step
            × Allows K.script.files (child_count self.old.process.journal) step (note_of note) }
        ensures noted { IfOk result (λ _. self.new ≡ record {
          process = after_note self.old.process (note_of note);
          made = self.old.made + 1;
          has_yielded = yields;
        }) }
        ensures fits { FitsScript K.script self.old.process }
    {
        // Only the proof needs the slot: reading it shows that the context fits the script.
        let _slot = self.context.slot();
        self.context.note(note)?;
        self.made += 1;
        self.has_yielded = yields;
        Ok(())
    }

    /// Notes a step that said its text.
    pub fn note_said(&mut self, alloc: Global) -> Result<(), AllocError>
        requires said { (text : List ℕ) × MayMake K.script self.old (say text) }
        ensures noted { IfOk result (λ _. (text : List ℕ) → StandsAt K.script self.old.process (say text)
            → self.new ≡ record {
              process = after_note self.old.process (said text);
              made = self.old.made + 1;
              has_yielded = false;
            }) }
        ensures fits { FitsScript K.script self.old.process }
    {
        // Only the proof needs the slot: reading it shows that the context fits the script.
        let _slot = self.context.slot();
        self.context.note_said(alloc)?;
        self.made += 1;
        self.has_yielded = false;
        Ok(())
    }

    /// Ends the turn: the process leaves the processor.
    pub fn into_context(self) -> Context<K>
        ensures { result ≡ self.process }
    {
        self.context
    }

    /// Whether the turn is over: all steps of a turn were made, or the last one was a yield.
    pub fn is_over(&self, script: &Script) -> bool
        requires { script.now ≡ K.script }
        ensures over { result ≡ (self.now.has_yielded || (self.now.made == K.script.quantum)) }
        ensures left { result ≡ false → HasStepsLeft K.script self.now }
    {
        self.has_yielded || self.made == script.quantum()
    }
}
