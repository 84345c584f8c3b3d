//! How the objects of a run are closed, and what they have left.

ghost use Rattle.std.specs.Prelude.{◌≡◌, ◌++◌, ◌∷◌, [], length, IfOk, MatchOption};
ghost use Rattle.std.specs.List.{All};
ghost use Rattle.fak_model.specs.Seats.{IsWhole};
ghost use Rattle.fak_files.specs.Calls.{entries_after};
ghost use Rattle.fak_processor.specs.Processors.{ids_of};
ghost use Rattle.fak_processor.specs.Joined.{AreTalliesOf, ids_of_tallies};
ghost use Rattle.fak_kernel.specs.Closing.{AreClosed, IsSleeper, IsWholeAt};

use crate::ending::joined::Tallies;
use fak_files::FileRest;
use fak_model::FileEntry;
use fak_processor::Objects;
use fak_queue::Rest;
use fak_run::{Context, Run, Sleeper};
use fak_sem::{SemTally, Semaphore};
use std::alloc::{AllocError, Global};

/// What the objects of a run have left: the sleepers, semaphore by semaphore, oldest first, and the file entries.
#[derive(Drop)]
pub(crate) struct Remains<K: Run> {
    pub(crate) asleep: Vec<Context<K>>,
    pub(crate) entries: Vec<FileEntry>,
}

/// Takes out the sleeper that has waited longest. This is a function of its own, since a loop over the iterator itself
/// needs a proof of what it has yielded so far.
fn take_oldest<K: Run>(rest: &mut Rest<Sleeper<K>>) -> Option<Sleeper<K>>
    ensures { MatchOption result ((rest.old ≡ []) × (rest.new ≡ [])) (λ x. rest.old ≡ x ∷ rest.new) }
{
    rest.next()
}

/// Appends the processes that a closed wait queue has left.
fn drain<K: Run>(asleep: &mut Vec<Context<K>>, waiting: Rest<Sleeper<K>>) -> Result<(), AllocError>
    ensures added { IfOk result (λ _. asleep.new.items ≡ asleep.old.items ++ waiting) }
    ensures sleepers { IfOk result (λ _. All (IsSleeper K.script) waiting) }
{
    let mut rest = waiting;
    while let Some(sleeper) = take_oldest(&mut rest) {
        asleep.push(sleeper.rest())?;
    }
    Ok(())
}

/// Closes the semaphores, one after the other. Returns the sleepers.
fn close_each<K: Run>(
    alloc: Global,
    semaphores: Vec<Semaphore<Sleeper<K>>>,
    tallies: Vec<SemTally<Sleeper<K>>>,
) -> Result<Vec<Context<K>>, AllocError>
    requires tallies { ids_of_tallies tallies.items ≡ ids_of semaphores.items }
    requires whole { All IsWholeAt tallies.items }
    ensures closed { IfOk result (λ asleep. AreClosed K.script tallies.items asleep.items) }
{
    let mut asleep = Vec::new(alloc);
    let mut rest = tallies.into_iter();
    for semaphore in semaphores {
        let Some(tally) = rest.next() else {
            unreachable!()
        };
        drain(&mut asleep, semaphore.close(tally))?;
    }
    Ok(asleep)
}

/// The entries of a closed file table that has this many.
fn read_entries(alloc: Global, rest: FileRest, count: u64) -> Result<Vec<FileEntry>, AllocError>
    requires count { length rest ≡ count }
    ensures entries { IfOk result (λ entries. entries.items ≡ rest) }
{
    let mut entries = Vec::new(alloc);
    for i in 0..count {
        entries.push(rest.get(i))?;
    }
    Ok(entries)
}

/// These sleepers, and the entries of a closed file table that has this many.
fn with_entries<K: Run>(
    alloc: Global,
    asleep: Vec<Context<K>>,
    rest: FileRest,
    count: u64,
) -> Result<Remains<K>, AllocError>
    requires count { length rest ≡ count }
    ensures asleep { IfOk result (λ left. left.asleep.items ≡ asleep.items) }
    ensures entries { IfOk result (λ left. left.entries.items ≡ rest) }
{
    match read_entries(alloc, rest, count) {
        Ok(entries) => Ok(Remains { asleep, entries }),
        Err(fault) => {
            drop(asleep);
            Err(fault)
        }
    }
}

/// Closes the objects, once all seats are joined. The file table has this many entries. What the queues have left is
/// dropped: no process is ready, and the slots are free. The births and the count of busy processes have nothing to
/// close.
#[tactic(auto, using(crate::proofs::Closing::length_entries))]
pub(crate) fn close<K: Run>(
    alloc: Global,
    objects: Objects<K>,
    tallies: Tallies<K>,
    count: u64,
) -> Result<Remains<K>, AllocError>
    requires tallies { AreTalliesOf objects tallies }
    requires ready { IsWhole tallies.ready.object.seats tallies.ready.names }
    requires free { IsWhole tallies.free.object.seats tallies.free.names }
    requires semaphores { All IsWholeAt tallies.semaphores }
    requires files { IsWhole tallies.files.object.seats tallies.files.names }
    requires count { count ≡ objects.files.entries }
    ensures closed { IfOk result (λ left. AreClosed K.script tallies.semaphores left.asleep.items) }
    ensures entries { IfOk result (λ left. left.entries.items
        ≡ entries_after tallies.files.seen 0 objects.files.entries) }
{
    drop(objects.ready.close(tallies.ready));
    drop(objects.free.close(tallies.free));
    let rest = objects.files.close(tallies.files);
    match close_each(alloc, objects.semaphores, tallies.semaphores) {
        Ok(asleep) => with_entries(alloc, asleep, rest, count),
        Err(fault) => Err(fault),
    }
}
