//! The seats of a processor, and the processes that it saw end or halt.

mod file_holds;
pub mod files;

use fak_count::{CreditSeat, RoomSeat};
use fak_files::FileSeat;
use fak_queue::Seat;
use fak_run::{Context, Run, Sleeper, Slot};
use fak_sem::SemSeat;
use files::Files;
use std::fmt;
use std::marker::Model;

/// A seat of each object, and the processes that the processor has seen end or halt.
#[derive(Drop)]
pub struct Seats<K: Run> {
    /// Its seat at the ready queue.
    pub ready: Seat<Context<K>>,
    /// Its seat at the free slots.
    pub free: Seat<Slot<K>>,
    /// Its seats at the semaphores, in the order of the script.
    pub semaphores: Vec<SemSeat<Sleeper<K>>>,
    /// Its seat at the births.
    pub births: RoomSeat,
    /// Its seat at the count of the processes that are ready or run.
    pub busy: CreditSeat,
    /// Its seat at the file table.
    pub files: FileSeat,
    /// The processes that it saw end.
    pub ended: Vec<Context<K>>,
    /// The processes that it saw halt.
    pub halted: Vec<Context<K>>,
    /// The copy into which it reads the entries of the file table.
    pub copy: Files,
}

impl<K: Run> Model for Seats<K> {
    ghost use Rattle.fak_processor.specs.Processors.{ProcessorOf};

    ghost Value = { ProcessorOf };

    ghost view = { λ p. record {
      ready = p.ready;
      free = p.free;
      semaphores = p.semaphores.items;
      births = p.births;
      busy = p.busy;
      files = p.files;
      ended = p.ended.items;
      halted = p.halted.items;
      copy = p.copy;
    } };
}

impl<K: Run> fmt::Debug for Seats<K> {
    fn fmt<W: fmt::Write>(&self, f: &mut fmt::Formatter<W>) -> fmt::Result {
        f.debug_struct("Seats")
            .field("births", &self.births)
            .field("busy", &self.busy)
            .field("ended", &self.ended)
            .field("halted", &self.halted)
            .finish_non_exhaustive()
    }
}
