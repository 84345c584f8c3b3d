//! The tables of tails.

ghost use Rattle.std.specs.Prelude.{◌<◌};

use crate::attempts::Manner;
use crate::case::Plan;
use crate::fault::Fault;
use crate::run::Machine;
use crate::table::print_line;
use crate::tail::{Tail, middle_tail};
use crate::tail_case::{Caller, TailCase};
use std::alloc::{AllocError, Global};
use std::sync::Wait;

/// The rows of each table.
const ROWS: &[(&str, Caller)] = &[
    (
        "insert, delete",
        Caller::Seat {
            manner: Manner::Attempt,
            pauses: true,
        },
    ),
    (
        ".. without pauses",
        Caller::Seat {
            manner: Manner::Attempt,
            pauses: false,
        },
    ),
    (
        "wait_insert, wait_delete",
        Caller::Seat {
            manner: Manner::Wait,
            pauses: true,
        },
    ),
    (
        ".. without pauses",
        Caller::Seat {
            manner: Manner::Wait,
            pauses: false,
        },
    ),
    (
        "claims and tries",
        Caller::Seat {
            manner: Manner::Claim,
            pauses: false,
        },
    ),
    (
        ".. with pauses between",
        Caller::Seat {
            manner: Manner::ClaimAndPause,
            pauses: false,
        },
    ),
    ("ArrayQueue", Caller::Ring),
    ("Mutex, VecDeque", Caller::Lock),
    ("the clock alone", Caller::Clock),
];

/// The sizes of the tables.
const TABLES: &[(&str, u64)] = &[("8 cells", 8), ("1,024 cells", 1024)];

/// The columns of each table.
const COLUMNS: &[(&str, u64)] = &[("1 pair", 1), ("2 pairs", 2), ("4 pairs", 4)];

/// The middle figures of all rounds of a case.
fn tail_in_rounds<R: Machine>(
    rt: &R,
    alloc: Global,
    case: &TailCase,
    plan: Plan,
) -> Result<Option<Tail>, Fault> {
    let mut tails = Vec::new(alloc);
    for _ in 0..plan.rounds {
        if let Some(tail) = case.once(rt, alloc, plan.items)? {
            tails.push(tail)?;
        }
    }
    Ok(middle_tail(alloc, tails.as_slice())?)
}

/// Adds the figures of a column.
fn add_figures(line: &mut String, found: Option<Tail>) -> Result<(), AllocError> {
    match found {
        Some(tail) => write!(
            line,
            " |{:>6} {:>7} {:>8} {:>9}",
            tail.median, tail.p99, tail.p999, tail.worst
        ),
        None => line.push_str(" |     -       -        -         -"),
    }
}

/// The lines over the others: an empty one, the title, and the heads of the columns.
fn heads_of(alloc: Global, title: &str) -> Result<String, AllocError> {
    let mut line = format!(in alloc; "\n{title:<25}")?;
    for (column, _) in COLUMNS {
        write!(line, " |{column:>33}")?;
    }
    Ok(line)
}

/// Measures this row of a table of queues of this many cells, and prints it.
fn print_row<R: Machine + Print>(
    rt: &R,
    alloc: Global,
    row: &(&str, Caller),
    size: u64,
    plan: Plan,
) -> Result<(), Fault>
    requires { 0 < size }
{
    let mut line = format!(in alloc; "{:<25}", row.0)?;
    for (_, pairs) in COLUMNS {
        let case = TailCase {
            caller: row.1,
            size,
            pairs: *pairs,
        };
        add_figures(&mut line, tail_in_rounds(rt, alloc, &case, plan)?)?;
    }
    print_line(rt, Ok(line))
}

/// Measures the rows of such a table, and prints them.
fn print_rows<R: Machine + Print>(rt: &R, alloc: Global, size: u64, plan: Plan) -> Result<(), Fault>
    requires { 0 < size }
{
    for row in ROWS {
        print_row(rt, alloc, row, size, plan)?;
    }
    Ok(())
}

/// Prints the line over all tables.
fn print_head<R: Print>(rt: &R, plan: Plan) -> Result<(), Fault> {
    println!(rt;
        "Nanoseconds for a single call that is not refused: median, 99 %, 99.9 % and worst; of each the middle of {} rounds, with {} items of each producer",
        plan.rounds, plan.items
    )?;
    Ok(())
}

/// Measures all cases and prints the tables. A queue has one cell at least.
pub fn measure_tails<R: Machine + Print>(rt: &R, alloc: Global, plan: Plan) -> Result<(), Fault> {
    print_head(rt, plan)?;
    for (title, size) in TABLES {
        print_line(rt, heads_of(alloc, title))?;
        print_rows(rt, alloc, (*size).max(1), plan)?;
    }
    Ok(())
}
