//! Scripts: programs of steps, and the sizes of what they run in.

ghost use Rattle.std.specs.Prelude.{◌≡◌};
ghost use Rattle.fak_text.specs.Script.{ScriptOf, IsInRange};
ghost use Rattle.fak_text.specs.Views.{programs_of};

use crate::steps::Step;
use std::marker::Model;

/// A script whose values are all in range. Only `read_script` returns one.
#[derive(Debug, Drop)]
pub struct Script {
    pub(crate) version: u64,
    pub(crate) slots: u64,
    pub(crate) births: u64,
    pub(crate) quantum: u64,
    pub(crate) stint: u64,
    pub(crate) semaphores: Vec<u64>,
    pub(crate) files: u64,
    pub(crate) programs: Vec<Vec<Step>>,
    pub(crate) start: Vec<u64>,
}

impl Model for Script {
    ghost Value = { ScriptOf };

    ghost view = { λ s. record {
      version = s.version;
      slots = s.slots;
      births = s.births;
      quantum = s.quantum;
      stint = s.stint;
      semaphores = s.semaphores.items;
      files = s.files;
      programs = programs_of s.programs.items;
      start = s.start.items;
    } };

    ghost invariant = { λ s. IsInRange (record {
      version = s.version;
      slots = s.slots;
      births = s.births;
      quantum = s.quantum;
      stint = s.stint;
      semaphores = s.semaphores.items;
      files = s.files;
      programs = programs_of s.programs.items;
      start = s.start.items;
    }) };
}

impl Script {
    /// The version of the script, 1 or 2.
    pub fn version(&self) -> u64
        ensures value { result ≡ self.now.version }
        ensures range { IsInRange self.now }
    {
        self.version
    }

    /// How many processes may be in the run at once, 1 to 64.
    pub fn slots(&self) -> u64
        ensures value { result ≡ self.now.slots }
        ensures range { IsInRange self.now }
    {
        self.slots
    }

    /// How many children may be started, 0 to 1,000.
    pub fn births(&self) -> u64
        ensures value { result ≡ self.now.births }
        ensures range { IsInRange self.now }
    {
        self.births
    }

    /// How many steps a turn has, 1 to 1,000.
    pub fn quantum(&self) -> u64
        ensures value { result ≡ self.now.quantum }
        ensures range { IsInRange self.now }
    {
        self.quantum
    }

    /// How many calls each seat has, 1 to 1,099,511,627,776.
    pub fn stint(&self) -> u64
        ensures value { result ≡ self.now.stint }
        ensures range { IsInRange self.now }
    {
        self.stint
    }

    /// The value that each semaphore begins at, 0 to 1,000,000; at most 16.
    pub fn semaphores(&self) -> &[u64]
        ensures value { result.now ≡ self.now.semaphores }
        ensures range { IsInRange self.now }
    {
        self.semaphores.as_slice()
    }

    /// How many entries the file table has, 1 to 16.
    pub fn files(&self) -> u64
        ensures value { result ≡ self.now.files }
        ensures range { IsInRange self.now }
    {
        self.files
    }

    /// The programs, at most 64, each of at most 1,000 steps.
    pub fn programs(&self) -> &[Vec<Step>]
        ensures value { programs_of result.now ≡ self.now.programs }
        ensures range { IsInRange self.now }
    {
        self.programs.as_slice()
    }

    /// The program of each process that is started first; at most as many as there are slots.
    pub fn start(&self) -> &[u64]
        ensures value { result.now ≡ self.now.start }
        ensures range { IsInRange self.now }
    {
        self.start.as_slice()
    }
}
