//! The lines of all rows.

use fak_kernel::{Outcome, ProcessRow};
use fak_text::{Note, Script, Step};

/// How often a line occurs in all journals.
pub fn count(rows: &[ProcessRow], line: &Note) -> u64 {
    let mut total = 0u64;
    for row in rows {
        for note in &row.journal {
            if *note == *line {
                total = total.saturating_add(1);
            }
        }
    }
    total
}

/// How many children all journals name.
pub fn births(rows: &[ProcessRow]) -> u64 {
    let mut total = 0u64;
    for row in rows {
        for note in &row.journal {
            if let Note::Spawned(_) = note {
                total = total.saturating_add(1);
            }
        }
    }
    total
}

/// How many rows are Stuck before a down of this semaphore.
fn stuck(script: &Script, rows: &[ProcessRow], semaphore: u64) -> u64 {
    let mut total = 0u64;
    for row in rows {
        if is_stuck_at(script, row, semaphore) {
            total = total.saturating_add(1);
        }
    }
    total
}

fn is_stuck_at(script: &Script, row: &ProcessRow, semaphore: u64) -> bool {
    let Some(steps) = script.programs().get(row.program as usize) else {
        return false;
    };
    match steps.get(row.position as usize) {
        Some(Step::Down(other)) => *other == semaphore && row.outcome == Outcome::Stuck,
        _ => false,
    }
}

/// Without a shutdown, the downs of each semaphore are the lesser of those asked for, and its start and its ups.
pub fn are_granted(script: &Script, rows: &[ProcessRow]) -> bool {
    if count(rows, &Note::Shutdown) > 0 {
        return true;
    }
    let mut semaphore = 0u64;
    for start in script.semaphores() {
        let downs = count(rows, &Note::Down(semaphore));
        let asked = downs.saturating_add(stuck(script, rows, semaphore));
        let given = start.saturating_add(count(rows, &Note::Up(semaphore)));
        if downs != asked.min(given) {
            return false;
        }
        semaphore = semaphore.saturating_add(1);
    }
    true
}
