//! A process of a run, with its journal.

ghost use Rattle.std.specs.Prelude.{◌≡◌, ℕ, ◌+◌, ◌<◌, ◌≤◌, nat_lt, List, [], ◌∷◌, ◌++◌, length, map, Option, None, IfOk, IfSome, IfNone};
ghost use Rattle.fak_text.specs.Script.{ScriptOf, StepOf, IsStepInRange, limits_of, say};
ghost use Rattle.fak_text.specs.Journal.{Process, FitsScript, StandsAt, new_process, after_note, Allows, births_of, child_count, said};
ghost use Rattle.fak_text.specs.Views.{step_of, note_of};
ghost use Rattle.std.specs.List.{list_any, sum_by};
ghost use Rattle.fak_run.specs.Contexts.{IsAsleep, unnoted};
ghost use Rattle.fak_run.specs.Ledger.{shuts_of};
ghost use Rattle.fak_run.specs.ListScheduler.{next_step};
ghost use Rattle.fak_run.specs.Told.{told_row};
ghost use Rattle.fak_run.specs.Views.{row_of};

use crate::report::{Outcome, ProcessRow};
use fak_text::{Note, Script, Step};
use std::alloc::{AllocError, Global};
use std::fmt;
use std::marker::{Brand, Model, PhantomData};

/// The script that a run executes. The call that begins the run picks it.
pub trait Run {
    ghost script: { ScriptOf };
}

impl Run for Brand {
    ghost script = { record {
      version = 1;
      slots = 0;
      births = 0;
      quantum = 0;
      stint = 0;
      semaphores = [];
      files = 0;
      programs = [];
      start = [];
    } };
}

/// A process of the run. Its journal fits the script of the run. The notes that it keeps have no said texts: the script
/// has them.
#[derive(Drop)]
pub struct Context<K: Run> {
    name: Vec<u64>,
    program: u64,
    slot: u64,
    position: u64,
    children: u64,
    journal: Vec<Note>,
    of: PhantomData<K>,
}

impl<K: Run> Model for Context<K> {
    ghost use Rattle.std.specs.Prelude.{map};
    ghost use Rattle.fak_text.specs.Script.{steps_of};
    ghost use Rattle.fak_text.specs.Journal.{Process};
    ghost use Rattle.fak_text.specs.Views.{note_of};
    ghost use Rattle.fak_run.specs.Contexts.{IsContext};
    ghost use Rattle.fak_run.specs.Told.{told_notes};

    ghost Value = { Process };

    ghost view = { λ c. record {
      name = c.name.items;
      program = c.program;
      slot = c.slot;
      position = c.position;
      journal = told_notes (steps_of K.script c.program) (map note_of c.journal.items);
    } };

    ghost invariant = { λ c. IsContext K.script c.children
        (record {
          name = c.name.items;
          program = c.program;
          slot = c.slot;
          position = c.position;
          journal = told_notes (steps_of K.script c.program) (map note_of c.journal.items);
        }) };
}

impl<K: Run> Context<K> {
    /// A process that has taken no step.
    pub fn new(alloc: Global, name: Vec<u64>, program: u64, slot: u64) -> Context<K>
        requires slot { slot < K.script.slots }
        requires program { program < length K.script.programs }
        ensures { result ≡ new_process name.items program slot }
    {
        Context {
            name,
            program,
            slot,
            position: 0,
            children: 0,
            journal: Vec::new(alloc),
            of: PhantomData,
        }
    }

    /// The slot of the process.
    pub fn slot(&self) -> u64
        ensures slot { result ≡ self.now.slot }
        ensures fits { FitsScript K.script self.now }
    {
        self.slot
    }

    /// The step at the process's position; None at the end of its program.
    pub fn next<'s>(&self, script: &'s Script) -> Option<&'s Step>
        requires { script.now ≡ K.script }
        ensures end { IfNone result (next_step K.script self.now ≡ None) }
        ensures next { IfSome result (λ step. StandsAt K.script self.now (step_of step.now)) }
        ensures range { IfSome result (λ step. IsStepInRange (limits_of K.script) (step_of step.now)) }
    {
        // For the proof only: the call shows that the script is in range.
        let _slots = script.slots();
        self.step_at_position(script)
    }

    fn step_at_position<'s>(&self, script: &'s Script) -> Option<&'s Step>
        requires { script.now ≡ K.script }
        ensures end { IfNone result (next_step K.script self.now ≡ None) }
        ensures next { IfSome result (λ step. StandsAt K.script self.now (step_of step.now)) }
    {
        let programs = script.programs();
        let steps = programs[self.program as usize].as_slice();
        steps.get(self.position as usize)
    }

    /// The number of the next child.
    pub fn children(&self) -> u64
        ensures { result ≡ child_count self.now.journal }
    {
        self.children
    }

    /// The name of the next child.
    pub fn child_name(&self, alloc: Global) -> Result<Vec<u64>, AllocError>
        ensures name { IfOk result (λ name. name.items ≡ self.now.name ++ child_count self.now.journal ∷ []) }
    {
        let mut name = Vec::new(alloc);
        name.extend_from_slice(self.name.as_slice())?;
        name.push(self.children)?;
        Ok(name)
    }

    /// Allocates the memory for one more note.
    pub fn reserve_note(&mut self) -> Result<(), AllocError>
        ensures same { self.new ≡ self.old }
    {
        self.journal.reserve(1)
    }

    /// Moves the process past the step at its position, which gave this note.
    pub fn note(&mut self, note: Note) -> Result<(), AllocError>
        requires { (step : StepOf) × StandsAt K.script self.old step
            × Allows K.script.files (child_count self.old.journal) step (note_of note) }
        ensures noted { IfOk result (λ _. self.new ≡ after_note self.old (note_of note)) }
    {
        let births = birth_count(&note);
        // For the proof only: the slice shows that the journal fits into memory.
        let _made = self.journal.as_slice();
        self.journal.push(note)?;
        self.children += births;
        self.position += 1;
        Ok(())
    }

    /// Moves the process past the step at its position, which said its text.
    pub fn note_said(&mut self, alloc: Global) -> Result<(), AllocError>
        requires { (text : List ℕ) × StandsAt K.script self.old (say text) }
        ensures noted { IfOk result (λ _. (text : List ℕ) → StandsAt K.script self.old (say text)
            → self.new ≡ after_note self.old (said text)) }
    {
        // For the proof only: the slice shows that the journal fits into memory.
        let _made = self.journal.as_slice();
        self.journal.push(Note::Say(String::new(alloc)))?;
        self.position += 1;
        Ok(())
    }

    /// The process before its last step, which is a down that is not done yet.
    pub(crate) fn without_down(mut self) -> Context<K>
        requires { (semaphore : ℕ) × IsAsleep K.script semaphore self }
        ensures { result ≡ unnoted self }
    {
        let journal = self.journal.as_slice();
        let before = journal.len() - 1;
        self.journal.truncate(before);
        self.position -= 1;
        self
    }

    /// The row of the process with this outcome, without the said texts.
    pub fn into_row(self, outcome: Outcome) -> ProcessRow
        ensures row { told_row K.script (row_of result) ≡ record { process = self; outcome = outcome } }
        ensures fits { FitsScript K.script self }
    {
        let Context {
            name,
            program,
            slot,
            position,
            children: _,
            journal,
            of: _,
        } = self;
        ProcessRow {
            name,
            program,
            slot,
            position,
            outcome,
            journal,
        }
    }

    /// Whether one of its steps was a shutdown.
    pub fn has_shutdown(&self) -> bool
        ensures { result ≡ nat_lt 0 (sum_by shuts_of self.now.journal) }
    {
        has_shutdown_note(self.journal.as_slice())
    }
}

/// Whether one of the notes is that of a shutdown.
fn has_shutdown_note(notes: &[Note]) -> bool
    ensures { result ≡ list_any (λ note. nat_lt 0 (shuts_of (note_of note))) notes.now }
{
    notes.iter().any(|note| matches!(note, Note::Shutdown))
}

/// The number of children that the step with this note began.
fn birth_count(note: &Note) -> u64
    ensures value { result ≡ births_of (note_of note.now) }
    ensures most { result ≤ 1 }
{
    match note {
        Note::Spawned(_) => 1,
        _ => 0,
    }
}

impl<K: Run> fmt::Debug for Context<K> {
    fn fmt<W: fmt::Write>(&self, f: &mut fmt::Formatter<W>) -> fmt::Result {
        f.debug_struct("Context")
            .field("name", &self.name)
            .field("program", &self.program)
            .field("slot", &self.slot)
            .field("position", &self.position)
            .finish_non_exhaustive()
    }
}
