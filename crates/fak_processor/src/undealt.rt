//! How the seats of new objects are dealt: each processor gets one of each object.

ghost use Rattle.std.specs.Prelude.{◌≡◌, ◌<◌, ◌∷◌, [], length, map, IfOk};
ghost use Rattle.fak_processor.specs.Opened.{dealt_to, fresh_rows, zipped};

use crate::seats::Seats;
use crate::seats::files::Files;
use fak_count::{CreditSeat, RoomSeat};
use fak_files::FileSeat;
use fak_queue::Seat;
use fak_run::{Context, Run, Sleeper, Slot};
use fak_sem::SemSeat;
use std::alloc::{AllocError, Global};
use std::vec::IntoIter;

/// The seats that no processor has yet: of each object as many as there are processors to come.
#[derive(Drop)]
pub(crate) struct Undealt<K: Run> {
    pub(crate) free: IntoIter<Seat<Slot<K>>>,
    pub(crate) births: IntoIter<RoomSeat>,
    pub(crate) busy: IntoIter<CreditSeat>,
    pub(crate) rows: IntoIter<Vec<SemSeat<Sleeper<K>>>>,
    pub(crate) files: IntoIter<FileSeat>,
}

impl<K: Run> Undealt<K> {
    /// The seats of the next processor.
    fn next(&mut self, alloc: Global, ready: Seat<Context<K>>, copy: Files) -> Seats<K>
        requires left { (0 < length self.old.free.rest.items) × (0 < length self.old.births.rest.items)
            × (0 < length self.old.busy.rest.items)
            × (0 < length self.old.rows.rest.items) × (0 < length self.old.files.rest.items) }
        ensures free { self.old.free.rest.items ≡ result.free ∷ self.new.free.rest.items }
        ensures births { self.old.births.rest.items ≡ result.births ∷ self.new.births.rest.items }
        ensures busy { self.old.busy.rest.items ≡ result.busy ∷ self.new.busy.rest.items }
        ensures rows { map (λ row. row.items) self.old.rows.rest.items ≡ result.semaphores ∷ map
            (λ row. row.items) self.new.rows.rest.items }
        ensures files { self.old.files.rest.items ≡ result.files ∷ self.new.files.rest.items }
        ensures others { result ≡ record result { ready = ready; ended = []; halted = []; copy = copy } }
    {
        Seats {
            ready,
            free: next_of(&mut self.free),
            semaphores: next_of(&mut self.rows),
            births: next_of(&mut self.births),
            busy: next_of(&mut self.busy),
            files: next_of(&mut self.files),
            ended: Vec::new(alloc),
            halted: Vec::new(alloc),
            copy,
        }
    }
}

/// The next of the values that are dealt. There is one.
fn next_of<T: Drop>(left: &mut IntoIter<T>) -> T
    requires left { 0 < length left.old.rest.items }
    ensures next { left.old.rest.items ≡ result ∷ left.new.rest.items }
{
    let Some(next) = left.next() else {
        unreachable!()
    };
    next
}

/// An empty row for each processor. Only the proof uses the stint.
pub(crate) fn empty_rows<K: Run>(
    alloc: Global,
    _stint: u64,
    processors: u64,
) -> Result<Vec<Vec<SemSeat<Sleeper<K>>>>, AllocError>
    ensures rows { IfOk result (λ rows. map (λ row. row.items) rows.items ≡ fresh_rows [] _stint 0 processors) }
{
    let mut rows = Vec::with_capacity(alloc, processors as usize)?;
    for _name in 0..processors {
        rows.push(Vec::new(alloc))?;
    }
    Ok(rows)
}

/// Appends one of the seats to each row, in order. There are as many seats as rows.
pub(crate) fn deal<K: Run>(
    alloc: Global,
    rows: Vec<Vec<SemSeat<Sleeper<K>>>>,
    seats: Vec<SemSeat<Sleeper<K>>>,
) -> Result<Vec<Vec<SemSeat<Sleeper<K>>>>, AllocError>
    requires len { length rows.items ≡ length seats.items }
    ensures dealt { IfOk result (λ dealt. map (λ row. row.items) dealt.items ≡ dealt_to
        (map (λ row. row.items) rows.items) seats.items) }
{
    let mut dealt = Vec::with_capacity(alloc, rows.len())?;
    let mut seats = seats.into_iter();
    for mut row in rows {
        row.push(next_of(&mut seats))?;
        dealt.push(row)?;
    }
    Ok(dealt)
}

/// The seats of the processors: each gets a seat of every object, and a copy of this many file entries. There are as
/// many seats of each object as of the ready queue.
pub(crate) fn zip_seats<K: Run>(
    alloc: Global,
    entries: u64,
    ready: Vec<Seat<Context<K>>>,
    left: &mut Undealt<K>,
) -> Result<Vec<Seats<K>>, AllocError>
    requires len { (length left.old.free.rest.items ≡ length ready.items)
        × (length left.old.births.rest.items ≡ length ready.items)
        × (length left.old.busy.rest.items ≡ length ready.items)
        × (length left.old.rows.rest.items ≡ length ready.items)
        × (length left.old.files.rest.items ≡ length ready.items) }
    ensures zipped { IfOk result (λ all. all.items ≡ zipped entries ready.items left.old.free.rest.items
        left.old.births.rest.items
        left.old.busy.rest.items (map (λ row. row.items) left.old.rows.rest.items) left.old.files.rest.items) }
{
    let mut all = Vec::with_capacity(alloc, ready.len())?;
    for ready in ready {
        let Ok(copy) = Files::new(alloc, entries) else {
            drop(ready);
            return Err(AllocError);
        };
        all.push(left.next(alloc, ready, copy))?;
    }
    Ok(all)
}
