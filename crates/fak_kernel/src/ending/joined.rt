//! The seats of the processors, joined processor by processor.

ghost use Rattle.std.specs.Prelude.{◌≡◌, ◌++◌, map, IfOk};
ghost use Rattle.fak_queue.specs.declared.state.SeatState.TheVariants.{Idle};
ghost use Rattle.fak_queue.specs.Queues.{state_of};
ghost use Rattle.fak_files.specs.declared.phase.Hold.TheVariants.{Nothing};
ghost use Rattle.fak_sem.specs.Semaphores.{sem_tally_of};
ghost use Rattle.fak_processor.specs.Processors.{AreOf, ids_of, ids_of_seats};
ghost use Rattle.fak_processor.specs.Joined.{AreTalliesOf, JoinAll, JoinEach, first_tallies, ids_of_tallies};

use fak_count::{CreditTally, RoomTally};
use fak_files::FileTally;
use fak_processor::{Objects, Seats};
use fak_queue::Tally;
use fak_run::{Context, Run, Sleeper, Slot};
use fak_sem::{SemSeat, SemTally, Semaphore};
use std::alloc::{AllocError, Global};
use std::marker::Model;

/// The seats of some processors, joined.
#[derive(Drop)]
pub(crate) struct Tallies<K: Run> {
    pub(crate) ready: Tally<Context<K>>,
    pub(crate) free: Tally<Slot<K>>,
    pub(crate) births: RoomTally,
    pub(crate) busy: CreditTally,
    pub(crate) semaphores: Vec<SemTally<Sleeper<K>>>,
    pub(crate) files: FileTally,
}

impl<K: Run> Model for Tallies<K> {
    ghost use Rattle.fak_processor.specs.Joined.{TalliesOf};

    ghost Value = { TalliesOf };

    ghost view = { λ t. record {
      ready = t.ready;
      free = t.free;
      births = t.births;
      busy = t.busy;
      semaphores = t.semaphores.items;
      files = t.files;
    } };
}

/// Some processors that have left: their seats, and the processes that they saw end and halt.
#[derive(Drop)]
pub(crate) struct Joined<K: Run> {
    pub(crate) tallies: Tallies<K>,
    pub(crate) ended: Vec<Context<K>>,
    pub(crate) halted: Vec<Context<K>>,
}

/// The tallies of one seat of each semaphore.
fn first_each<K: Run>(
    alloc: Global,
    seats: Vec<SemSeat<Sleeper<K>>>,
) -> Result<Vec<SemTally<Sleeper<K>>>, AllocError>
    ensures first { IfOk result (λ tallies. tallies.items ≡ map sem_tally_of seats.items) }
{
    let mut tallies = Vec::with_capacity(alloc, seats.len())?;
    for seat in seats {
        tallies.push(SemTally::of(seat))?;
    }
    Ok(tallies)
}

/// Joins one more seat of each semaphore.
fn join_each<K: Run>(
    alloc: Global,
    semaphores: &[Semaphore<Sleeper<K>>],
    tallies: Vec<SemTally<Sleeper<K>>>,
    seats: Vec<SemSeat<Sleeper<K>>>,
) -> Result<Vec<SemTally<Sleeper<K>>>, AllocError>
    requires tallies { ids_of_tallies tallies.items ≡ ids_of semaphores.now }
    requires seats { ids_of_seats seats.items ≡ ids_of semaphores.now }
    ensures joined { IfOk result (λ both. JoinEach semaphores.now tallies.items seats.items both.items) }
{
    let mut joined = Vec::with_capacity(alloc, semaphores.len())?;
    let mut tallies = tallies.into_iter();
    let mut seats = seats.into_iter();
    for semaphore in semaphores {
        let Some(tally) = tallies.next() else {
            unreachable!()
        };
        let Some(seat) = seats.next() else {
            unreachable!()
        };
        joined.push(semaphore.join(tally, seat))?;
    }
    Ok(joined)
}

impl<K: Run> Tallies<K> {
    /// Joins the seats of one more processor. Drops the processes that it saw end and halt.
    fn join(
        self,
        alloc: Global,
        objects: &Objects<K>,
        processor: Seats<K>,
    ) -> Result<Tallies<K>, AllocError>
        requires tallies { AreTalliesOf objects.now self }
        requires seats { AreOf objects.now processor }
        ensures joined { IfOk result (λ both. JoinAll objects.now self processor both) }
    {
        let ready = objects.ready.join(self.ready, processor.ready);
        let free = objects.free.join(self.free, processor.free);
        let births = objects.births.join(self.births, processor.births);
        let busy = objects.busy.join(self.busy, processor.busy);
        let files = objects.files.join(self.files, processor.files);
        let each = objects.semaphores.as_slice();
        match join_each(alloc, each, self.semaphores, processor.semaphores) {
            Ok(semaphores) => Ok(Tallies {
                ready,
                free,
                births,
                busy,
                semaphores,
                files,
            }),
            Err(fault) => {
                drop(ready);
                drop(free);
                drop(births);
                drop(busy);
                drop(files);
                Err(fault)
            }
        }
    }
}

impl<K: Run> Joined<K> {
    /// The seats of the first processor.
    pub(crate) fn of(alloc: Global, processor: Seats<K>) -> Result<Joined<K>, AllocError>
        requires idle { (state_of processor.ready ≡ Idle) × (state_of processor.free ≡ Idle)
            × (processor.files.hold ≡ Nothing) }
        ensures tallies { IfOk result (λ joined. joined.tallies ≡ first_tallies processor) }
        ensures ended { IfOk result (λ joined. joined.ended.items ≡ processor.ended) }
        ensures halted { IfOk result (λ joined. joined.halted.items ≡ processor.halted) }
    {
        let ready = Tally::of(processor.ready);
        let free = Tally::of(processor.free);
        let births = RoomTally::of(processor.births);
        let busy = CreditTally::of(processor.busy);
        let files = FileTally::of(processor.files);
        match first_each(alloc, processor.semaphores) {
            Ok(semaphores) => Ok(Joined {
                tallies: Tallies {
                    ready,
                    free,
                    births,
                    busy,
                    semaphores,
                    files,
                },
                ended: processor.ended,
                halted: processor.halted,
            }),
            Err(fault) => {
                drop(ready);
                drop(free);
                drop(births);
                drop(busy);
                drop(files);
                Err(fault)
            }
        }
    }

    /// Appends the processes that one more processor saw end and halt.
    fn append(&mut self, processor: &mut Seats<K>) -> Result<(), AllocError>
        ensures tallies { self.new.tallies ≡ self.old.tallies }
        ensures ended { IfOk result (λ _. self.new.ended.items ≡ self.old.ended.items ++ processor.old.ended) }
        ensures halted { IfOk result (λ _. self.new.halted.items ≡ self.old.halted.items ++ processor.old.halted) }
        ensures rest { processor.new
            ≡ record processor.old { ended = processor.new.ended; halted = processor.new.halted } }
    {
        self.ended.append(&mut processor.ended)?;
        self.halted.append(&mut processor.halted)
    }

    /// Joins one more processor.
    pub(crate) fn join(
        self,
        alloc: Global,
        objects: &Objects<K>,
        processor: Seats<K>,
    ) -> Result<Joined<K>, AllocError>
        requires tallies { AreTalliesOf objects.now self.tallies }
        requires seats { AreOf objects.now processor }
        ensures tallies { IfOk result (λ both. JoinAll objects.now self.tallies processor both.tallies) }
        ensures ended { IfOk result (λ both. both.ended.items ≡ self.ended.items ++ processor.ended) }
        ensures halted { IfOk result (λ both. both.halted.items ≡ self.halted.items ++ processor.halted) }
    {
        let mut all = self;
        let mut more = processor;
        if let Err(fault) = all.append(&mut more) {
            drop(all);
            drop(more);
            return Err(fault);
        }
        let Joined {
            tallies,
            ended,
            halted,
        } = all;
        match tallies.join(alloc, objects, more) {
            Ok(tallies) => Ok(Joined {
                tallies,
                ended,
                halted,
            }),
            Err(fault) => {
                drop(ended);
                drop(halted);
                Err(fault)
            }
        }
    }
}
