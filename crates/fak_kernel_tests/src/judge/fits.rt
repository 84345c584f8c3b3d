//! Rows compared with their programs.

use super::lines::count;
use fak_kernel::{Outcome, ProcessRow};
use fak_text::{Note, Script, Step};

/// Whether each journal fits the first steps of its program, and each process is left at a step that its outcome allows.
pub fn all_fit(script: &Script, rows: &[ProcessRow]) -> bool {
    let is_shut = count(rows, &Note::Shutdown) > 0;
    for row in rows {
        if !fits(script, row, is_shut) {
            return false;
        }
    }
    true
}

fn fits(script: &Script, row: &ProcessRow, is_shut: bool) -> bool {
    match script.programs().get(row.program as usize) {
        Some(steps) => fits_its_program(steps.as_slice(), row)
            && is_left(steps.as_slice(), row, is_shut),
        None => false,
    }
}

fn fits_its_program(steps: &[Step], row: &ProcessRow) -> bool {
    let made = row.journal.len();
    let mut children = 0u64;
    for (step, note) in steps.iter().zip(row.journal.iter()) {
        if !allows(step, note, &mut children) {
            return false;
        }
    }
    made <= steps.len() && row.position == made as u64
}

/// Whether the step may have this result after this many children. Counts one more if the step began one.
fn allows(step: &Step, note: &Note, children: &mut u64) -> bool {
    match (step, note) {
        (Step::Say(text), Note::Say(said)) => text.as_str() == said.as_str(),
        (Step::Yield, Note::Yield) => true,
        (Step::Shutdown, Note::Shutdown) => true,
        (Step::Down(semaphore), Note::Down(other)) => *semaphore == *other,
        (Step::Up(semaphore), Note::Up(other)) => *semaphore == *other,
        (Step::OpenFile(inode), Note::OpenFile(other, _)) => *inode == *other,
        (Step::CloseFile(inode), Note::CloseFile(other, _)) => *inode == *other,
        (Step::Stat(inode), Note::Stat(other, _)) => *inode == *other,
        (Step::Spawn(_), Note::Spawned(child)) => {
            let is_next = *child == *children;
            *children = children.saturating_add(1);
            is_next
        }
        (Step::Spawn(_), Note::NoBirth) => true,
        (Step::Spawn(_), Note::NoSlot) => true,
        _ => false,
    }
}

fn is_left(steps: &[Step], row: &ProcessRow, is_shut: bool) -> bool {
    match (row.outcome, steps.get(row.position as usize)) {
        (Outcome::Ended, None) => true,
        (Outcome::Stuck, Some(Step::Down(_))) => !is_shut,
        (Outcome::Halted, _) => is_shut,
        _ => false,
    }
}

/// Whether slots are in range, and rows that have not ended have different ones.
pub fn have_own_slots(script: &Script, rows: &[ProcessRow]) -> bool {
    let slots = script.slots();
    for row in rows {
        if row.slot >= slots || holders(rows, row.slot) > 1 {
            return false;
        }
    }
    true
}

fn holders(rows: &[ProcessRow], slot: u64) -> u64 {
    let mut total = 0u64;
    for row in rows {
        if row.slot == slot && row.outcome != Outcome::Ended {
            total = total.saturating_add(1);
        }
    }
    total
}
