//! What the processors of a run share.

use crate::alarm::Alarm;
use fak_count::{Credit, Room};
use fak_files::FileTable;
use fak_queue::Queue;
use fak_run::{Context, Run, Sleeper, Slot};
use fak_sem::Semaphore;
use std::fmt;
use std::marker::Model;

/// What all processors of a run share.
#[derive(Drop)]
pub struct Objects<K: Run> {
    /// The ready queue.
    pub ready: Queue<Context<K>>,
    /// The free slots.
    pub free: Queue<Slot<K>>,
    /// The semaphores of the script, in its order, with the processes that sleep there.
    pub semaphores: Vec<Semaphore<Sleeper<K>>>,
    /// The births that were used.
    pub births: Room,
    /// How many processes are ready or run.
    pub busy: Credit,
    /// The file table.
    pub files: FileTable,
    /// The word that stops the processors after a fault. Contracts do not see it. It is for as many processors as the
    /// ready queue has seats.
    pub alarm: Alarm,
}

impl<K: Run> Model for Objects<K> {
    ghost use Rattle.std.specs.Prelude.{◌≡◌};
    ghost use Rattle.fak_processor.specs.Processors.{AreFor, ObjectsOf};

    ghost Value = { ObjectsOf };

    ghost view = { λ o. record {
      ready = o.ready;
      free = o.free;
      semaphores = o.semaphores.items;
      births = o.births;
      busy = o.busy;
      files = o.files;
    } };

    ghost invariant = { λ o. (o.alarm ≡ o.ready.object.seats) × AreFor K.script (record {
      ready = o.ready;
      free = o.free;
      semaphores = o.semaphores.items;
      births = o.births;
      busy = o.busy;
      files = o.files;
    }) };
}

impl<K: Run> fmt::Debug for Objects<K> {
    fn fmt<W: fmt::Write>(&self, f: &mut fmt::Formatter<W>) -> fmt::Result {
        f.debug_struct("Objects")
            .field("births", &self.births)
            .field("busy", &self.busy)
            .field("alarm", &self.alarm)
            .finish_non_exhaustive()
    }
}
