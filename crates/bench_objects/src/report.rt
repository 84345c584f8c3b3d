//! All tables.

ghost use Rattle.std.specs.Prelude.{◌<◌};

use crate::case::{Case, Plan, spreads_of};
use crate::channels::{ChannelCase, ChannelKind, Traffic};
use crate::fault::Fault;
use crate::handover::{SemaphoreCase, SemaphoreKind};
use crate::queues::{Implementation, ItemKind, QueueCase};
use crate::run::Machine;
use crate::table::Table;
use crate::visits::{TableCase, TableKind};
use std::alloc::{AllocError, Global};

/// How much a run without figures does.
const SHORT: Plan = Plan {
    rounds: 1,
    items: 200,
    tails: false,
};

/// A table of queues of this many cells.
fn queue_table(
    alloc: Global,
    title: &'static str,
    item_kind: ItemKind,
    size: u64,
) -> Result<Table, AllocError>
    requires { 0 < size }
{
    let mut cases = Vec::new(alloc);
    for implementation in [
        Implementation::Seats,
        Implementation::Ring,
        Implementation::Lock,
    ] {
        for pairs in [0u64, 1, 2, 4] {
            let case = QueueCase {
                implementation,
                item_kind,
                size,
                pairs,
            };
            cases.push(Case::Queue(case))?;
        }
    }
    Ok(Table {
        title,
        columns: &["one thread", "1 pair", "2 pairs", "4 pairs"],
        rows: &["fak_queue", "ArrayQueue", "Mutex, VecDeque"],
        cases,
    })
}

/// The table of semaphores.
fn semaphore_table(alloc: Global, title: &'static str) -> Result<Table, AllocError> {
    let mut cases = Vec::new(alloc);
    for semaphore_kind in [SemaphoreKind::Seats, SemaphoreKind::Lock] {
        for is_shared in [false, true] {
            cases.push(Case::Semaphore(SemaphoreCase {
                semaphore_kind,
                is_shared,
            }))?;
        }
    }
    Ok(Table {
        title,
        columns: &["down and up", "two in turn"],
        rows: &["fak_sem, Parker", "Mutex, Condvar"],
        cases,
    })
}

/// A table of file tables, only read or written too.
fn file_table(alloc: Global, title: &'static str, writes: bool) -> Result<Table, AllocError> {
    let mut cases = Vec::new(alloc);
    for table_kind in [TableKind::Seats, TableKind::Readers, TableKind::Lock] {
        for threads in [1u64, 2, 4] {
            let case = TableCase {
                table_kind,
                threads,
                writes,
            };
            cases.push(Case::Table(case))?;
        }
    }
    Ok(Table {
        title,
        columns: &["1 thread", "2 threads", "4 threads"],
        rows: &["fak_files", "RwLock", "Mutex"],
        cases,
    })
}

/// The table of channels of this many cells.
fn channel_table(alloc: Global, title: &'static str, size: u64) -> Result<Table, AllocError> {
    let mut cases = Vec::new(alloc);
    for channel_kind in [ChannelKind::Ends, ChannelKind::Kit, ChannelKind::Lock] {
        for traffic in [
            Traffic::ToAndFro,
            Traffic::Pairs(1),
            Traffic::Pairs(4),
            Traffic::Pairs(16),
            Traffic::Receivers(32),
        ] {
            cases.push(Case::Channel(ChannelCase {
                channel_kind,
                size,
                traffic,
            }))?;
        }
    }
    Ok(Table {
        title,
        columns: &["to and fro", "1 pair", "4 pairs", "16 pairs", "1 to 32"],
        rows: &["fak_channel", "crossbeam_channel", "Mutex, 2 Condvars"],
        cases,
    })
}

/// The subject of a table.
#[derive(Clone, Copy)]
enum Subject {
    /// Queues of such items, of this many cells.
    Queues(ItemKind, u64),
    /// Semaphores.
    Semaphores,
    /// File tables, only read or written too.
    Files(bool),
    /// Channels of this many cells.
    Channels(u64),
}

/// The titles of all tables, and their subjects.
const TABLES: &[(&str, Subject)] = &[
    ("u64, 8 cells", Subject::Queues(ItemKind::Number, 8)),
    ("u64, 1,000 cells", Subject::Queues(ItemKind::Number, 1000)),
    ("u64, 1,024 cells", Subject::Queues(ItemKind::Number, 1024)),
    ("Vec, 8 cells", Subject::Queues(ItemKind::OwnedItem, 8)),
    (
        "Vec, 1,000 cells",
        Subject::Queues(ItemKind::OwnedItem, 1000),
    ),
    (
        "Vec, 1,024 cells",
        Subject::Queues(ItemKind::OwnedItem, 1024),
    ),
    ("semaphore", Subject::Semaphores),
    ("entry, only read", Subject::Files(false)),
    ("1 write in 100", Subject::Files(true)),
    ("channel, 8 cells", Subject::Channels(8)),
    ("channel, 1,024 cells", Subject::Channels(1024)),
];

/// The table of this. A queue has one cell at least.
fn table_of(alloc: Global, title: &'static str, subject: Subject) -> Result<Table, AllocError> {
    match subject {
        Subject::Queues(item_kind, size) => queue_table(alloc, title, item_kind, size.max(1)),
        Subject::Semaphores => semaphore_table(alloc, title),
        Subject::Files(writes) => file_table(alloc, title, writes),
        Subject::Channels(size) => channel_table(alloc, title, size),
    }
}

/// Prints the line over all tables.
fn print_head<R: Print>(rt: &R, plan: Plan) -> Result<(), Fault> {
    println!(rt;
        "Nanoseconds for an item or a call: best, median and worst of {} rounds; {} items of each producer, or calls of each thread",
        plan.rounds, plan.items
    )?;
    Ok(())
}

/// Measures everything and prints the tables.
pub fn measure<R: Machine + Print>(rt: &R, alloc: Global, plan: Plan) -> Result<(), Fault> {
    print_head(rt, plan)?;
    for &(title, subject) in TABLES {
        table_of(alloc, title, subject)?.print(rt, alloc, plan)?;
    }
    Ok(())
}

/// Runs each of these cases once for a short time. Returns how many there were.
fn runs_of<R: Machine>(rt: &R, alloc: Global, cases: &[Case]) -> Result<usize, Fault> {
    let spreads = spreads_of(rt, alloc, cases, SHORT)?;
    Ok(spreads.iter().flatten().count())
}

/// Runs each case once for a short time. Returns how many there were.
pub fn try_each<R: Machine>(rt: &R, alloc: Global) -> Result<usize, Fault> {
    let mut runs = 0usize;
    for &(title, subject) in TABLES {
        let table = table_of(alloc, title, subject)?;
        runs = runs.wrapping_add(runs_of(rt, alloc, table.cases.as_slice())?);
    }
    Ok(runs)
}
