//! What a run is opened for, and how each object is opened.

ghost use Rattle.std.specs.Prelude.{◌≡◌, ℕ, ◌<◌, ◌≤◌, length, map, slice_index_or, vec_len, IfOk};
ghost use Rattle.fak_model.specs.Calls.{fresh_seats};
ghost use Rattle.fak_sem.specs.Semaphores.{fresh_sem_seats, seats_of};
ghost use Rattle.fak_files.specs.Calls.{idle_seats};
ghost use Rattle.fak_run.specs.ListScheduler as lists;
ghost use Rattle.fak_processor.specs.Begun.{Between};
ghost use Rattle.fak_processor.specs.Opened.{AreProcessors, AreSeated, AreSemaphoresFor, fresh_all, fresh_rows};
ghost use Rattle.fak_processor.specs.Processors.{AreFor, IsReached, ids_of, lists_of};

use crate::alarm::Alarm;
use crate::fault::StepFault;
use crate::objects::Objects;
use crate::processor::Processor;
use crate::seats::Seats;
use crate::undealt::{Undealt, deal, empty_rows, zip_seats};
use fak_count::{Credit, CreditSeat, Room, RoomSeat};
use fak_files::{FileSeat, FileTable};
use fak_queue::{Queue, Seat};
use fak_run::{Run, Sleeper};
use fak_sem::{SemSeat, Semaphore};
use fak_text::Script;
use std::alloc::{AllocError, Global};
use std::fmt;
use std::marker::PhantomData;
use std::sync::Wait;

/// The objects of a run that begins, and the seats of its processors: each processor has a seat of every object.
#[derive(Drop)]
pub struct Opened<K: Run> {
    /// What all processors share.
    pub objects: Objects<K>,
    /// The seats of the processors, in the order of their numbers.
    pub processors: Vec<Seats<K>>,
}

impl<K: Run> fmt::Debug for Opened<K> {
    fn fmt<W: fmt::Write>(&self, f: &mut fmt::Formatter<W>) -> fmt::Result {
        f.debug_struct("Opened")
            .field("objects", &self.objects)
            .field("processors", &self.processors)
            .finish()
    }
}

/// What a run is opened for: its script and its number of processors. The type keeps that the script is the run's, and
/// that there are 1 to 8 processors.
#[derive(Drop)]
pub struct Plan<'r, K: Run> {
    /// The script of the run.
    pub script: &'r Script,
    /// What everything of the run is allocated with.
    pub alloc: Global,
    /// How many processors the run has: 1 to 8.
    pub processors: u64,
    /// The run, known to the type.
    pub run: PhantomData<K>,
    pub ghost script_is: { script.now ≡ K.script },
    pub ghost range: { AreProcessors processors },
}

impl<'r, K: Run> Plan<'r, K> {
    /// The plan of a run of this script on this many processors: 1 to 8.
    pub fn new(alloc: Global, script: &'r Script, processors: u64) -> Plan<'r, K>
        requires script { script.now ≡ K.script }
        requires processors { AreProcessors processors }
        ensures script { result.script.now ≡ script.now }
        ensures processors { result.processors ≡ processors }
    {
        Plan {
            script,
            alloc,
            processors,
            run: PhantomData,
        }
    }

    /// Opens the objects of the run. Processor 0 then puts the slots in and starts the processes.
    ///
    /// # Errors
    ///
    /// `Memory`, and `Worn` if processor 0 has no calls left.
    pub fn open<R: Wait>(&self, rt: &R) -> Result<Opened<K>, StepFault>
        ensures made { IfOk result (λ o. AreFor K.script o.objects × AreSeated self.now.processors o.objects) }
        ensures len { IfOk result (λ o. vec_len o.processors ≡ self.now.processors) }
        ensures begun { IfOk result (λ o. (i : ℕ) (d : _) → i < vec_len o.processors
            → Between K.script o.objects i (slice_index_or o.processors.items i d)) }
        ensures alone { self.now.processors ≡ 1 → IfOk result
            (λ o. (d : _) → IsReached K.script (slice_index_or o.processors.items 0 d)
            (lists.turn_over (lists_of K.script (slice_index_or o.processors.items 0 d)))) }
    {
        let Opened {
            objects,
            processors: mut dealt,
        } = self.open_objects()?;
        let first = Processor::new(&objects, self.script, self.alloc, 0, dealt.remove(0));
        let (first, begun) = first.begin(rt);
        match begun {
            Ok(()) => {
                dealt.insert(0, first)?;
                Ok(Opened {
                    objects,
                    processors: dealt,
                })
            }
            Err(fault) => {
                drop(objects);
                drop(first);
                drop(dealt);
                Err(fault)
            }
        }
    }

    /// Opens the objects of the run, and deals their seats to the processors.
    fn open_objects(&self) -> Result<Opened<K>, AllocError>
        ensures made { IfOk result (λ o. AreFor K.script o.objects) }
        ensures seated { IfOk result (λ o. AreSeated self.now.processors o.objects) }
        ensures fresh { IfOk result (λ o. o.processors.items
            ≡ fresh_all o.objects K.script.stint 0 self.now.processors) }
    {
        let alloc = self.alloc;
        let (ready, ready_seats) = self.open_queue()?;
        let (free, free_seats) = self.open_queue()?;
        let (births, birth_seats) = self.open_births()?;
        let (busy, busy_seats) = self.open_busy()?;
        let (semaphores, rows) = self.open_semaphores()?;
        let (files, file_seats) = self.open_files()?;
        let mut left = Undealt {
            free: free_seats.into_iter(),
            births: birth_seats.into_iter(),
            busy: busy_seats.into_iter(),
            rows: rows.into_iter(),
            files: file_seats.into_iter(),
        };
        let entries = self.script.files();
        let dealt = zip_seats(alloc, entries, ready_seats, &mut left)?;
        let objects = Objects {
            ready,
            free,
            semaphores,
            births,
            busy,
            files,
            alarm: Alarm::new(self.processors),
        };
        Ok(Opened {
            objects,
            processors: dealt,
        })
    }

    /// Opens a queue with a cell for each slot.
    fn open_queue<T: Drop>(&self) -> Result<(Queue<T>, Vec<Seat<T>>), AllocError>
        ensures opened { IfOk result (λ r. (r.0.size ≡ self.now.script.now.slots)
            × (r.0.object.seats ≡ self.now.processors)
            × (r.1.items ≡ fresh_seats r.0.object self.now.script.now.stint 0 self.now.processors)) }
    {
        let script = self.script;
        match Queue::open(self.alloc, script.slots(), self.processors, script.stint()) {
            Ok(opened) => Ok(opened),
            Err(fak_queue::OpenFault::Memory) => Err(AllocError),
            Err(_) => unreachable!(),
        }
    }

    /// Opens the room for births.
    fn open_births(&self) -> Result<(Room, Vec<RoomSeat>), AllocError>
        ensures opened { IfOk result (λ r. (r.0.bound ≡ self.now.script.now.births)
            × (r.0.object.seats ≡ self.now.processors)
            × (r.1.items ≡ fresh_seats r.0.object self.now.script.now.stint 0 self.now.processors)) }
    {
        let script = self.script;
        match Room::open(self.alloc, script.births(), self.processors, script.stint()) {
            Ok(opened) => Ok(opened),
            Err(fak_count::OpenFault::Memory) => Err(AllocError),
            Err(_) => unreachable!(),
        }
    }

    /// Opens the count of the processes that are ready or run. It begins with the started processes.
    fn open_busy(&self) -> Result<(Credit, Vec<CreditSeat>), AllocError>
        ensures opened { IfOk result (λ r. (r.0.start ≡ length self.now.script.now.start)
            × (r.0.object.seats ≡ self.now.processors)
            × (r.1.items ≡ fresh_seats r.0.object self.now.script.now.stint 0 self.now.processors)) }
    {
        let script = self.script;
        let started = script.start().len() as u64;
        match Credit::open(self.alloc, started, self.processors, script.stint()) {
            Ok(opened) => Ok(opened),
            Err(fak_count::OpenFault::Memory) => Err(AllocError),
            Err(_) => unreachable!(),
        }
    }

    /// Opens the file table.
    fn open_files(&self) -> Result<(FileTable, Vec<FileSeat>), AllocError>
        ensures opened { IfOk result (λ r. (r.0.entries ≡ self.now.script.now.files)
            × (r.0.object.seats ≡ self.now.processors)
            × (r.1.items ≡ idle_seats
            (fresh_seats r.0.object self.now.script.now.stint 0 self.now.processors))) }
    {
        let script = self.script;
        match FileTable::open(self.alloc, script.files(), self.processors, script.stint()) {
            Ok(opened) => Ok(opened),
            Err(fak_files::OpenFault::Memory) => Err(AllocError),
            Err(_) => unreachable!(),
        }
    }

    /// Opens the semaphores of the script. Each processor gets a row: a seat of each semaphore, in the script's order.
    fn open_semaphores(
        &self,
    ) -> Result<(Vec<Semaphore<Sleeper<K>>>, Vec<Vec<SemSeat<Sleeper<K>>>>), AllocError>
        ensures opened { IfOk result (λ r. AreSemaphoresFor self.now.script.now self.now.processors
            self.now.script.now.semaphores r.0.items) }
        ensures dealt { IfOk result (λ r. map (λ row. row.items) r.1.items ≡ fresh_rows
            (ids_of r.0.items) self.now.script.now.stint 0 self.now.processors) }
    {
        let alloc = self.alloc;
        let starts = self.script.semaphores();
        let mut semaphores = Vec::with_capacity(alloc, starts.len())?;
        let mut rows = empty_rows(alloc, self.script.stint(), self.processors)?;
        for start in starts {
            let (semaphore, seats) = self.open_semaphore(*start)?;
            rows = deal(alloc, rows, seats)?;
            semaphores.push(semaphore)?;
        }
        Ok((semaphores, rows))
    }

    /// Opens a semaphore that begins with this count, at most 1,000,000. Its wait queue has a cell for each slot.
    fn open_semaphore(
        &self,
        start: u64,
    ) -> Result<(Semaphore<Sleeper<K>>, Vec<SemSeat<Sleeper<K>>>), AllocError>
        requires start { start ≤ 1000000 }
        ensures opened { IfOk result (λ r. (r.0.object.start ≡ start) × (r.0.size ≡ self.now.script.now.slots)
            × (seats_of r.0.object ≡ self.now.processors) × (r.0.object.queue.seats ≡ self.now.processors)) }
        ensures seats { IfOk result (λ r. r.1.items
            ≡ fresh_sem_seats r.0.object self.now.script.now.stint 0 self.now.processors) }
    {
        let script = self.script;
        match Semaphore::open(
            self.alloc,
            start,
            script.slots(),
            self.processors,
            script.stint(),
        ) {
            Ok(opened) => Ok(opened),
            Err(fak_sem::OpenFault::Memory) => Err(AllocError),
            Err(_) => unreachable!(),
        }
    }
}
