//! The scenarios of the program: each has its folder in `crates/fak/scenarios/`, and is a test of the public calls here.

pub(crate) mod faults;
pub(crate) mod histories;
pub(crate) mod schedules;
pub(crate) mod scripts;

use crate::answers::{answer_to, is_text};
use crate::commands::asked;
use fak_commands::{Answer, Command, MainFault, serve};
use std::alloc::{AllocError, Global};
use std::marker::Sync;
use std::process::Abort;
use std::sync::Wait;
use std::thread::Threads;

/// A scenario: the words and the input of the program, its status, its output and its output of faults.
#[derive(Clone, Copy)]
pub(crate) struct Row {
    pub(crate) name: &'static str,
    pub(crate) line: &'static str,
    pub(crate) input: &'static str,
    pub(crate) status: u8,
    pub(crate) output: &'static str,
    pub(crate) faults: &'static str,
}

/// Whether the fault is that of the scenario, by its status and its line.
fn is_fault(alloc: Global, row: &Row, fault: MainFault) -> Result<bool, AllocError> {
    let line = format!(in alloc; "{fault}\n")?;
    Ok(line.as_str() == row.faults && fault.status() == row.status && row.output.is_empty())
}

/// Whether a call returned what the scenario says.
fn is_wanted(
    alloc: Global,
    row: &Row,
    answer: Result<Answer, MainFault>,
) -> Result<bool, AllocError> {
    match answer {
        Ok(answer) => Ok(
            is_text(&answer.text, row.output)
                && answer.status == row.status
                && row.faults.is_empty(),
        ),
        Err(fault) => is_fault(alloc, row, fault),
    }
}

/// The status of a command that is served, and what was written.
fn served(
    rt: &(impl AllocGlobal + Threads + Wait + Sync),
    command: Command,
    input: &str,
) -> Result<Answer, MainFault> {
    let mut text = Vec::new(rt.alloc());
    let status = serve(rt, rt.alloc(), command, &mut input.as_bytes(), &mut text)?;
    Ok(Answer { status, text })
}

/// Whether the call of the scenario returns what it says, and `serve` too. Words that are no command are refused without a call.
fn is_answered(
    rt: &(impl AllocGlobal + Threads + Wait + Sync),
    row: &Row,
) -> Result<bool, AllocError> {
    match asked(rt.alloc(), row.line)? {
        Ok(command) => {
            let called = answer_to(rt, command, row.input.as_bytes());
            let is_called = is_wanted(rt.alloc(), row, called)?;
            let served = served(rt, command, row.input);
            Ok(is_wanted(rt.alloc(), row, served)? && is_called)
        }
        Err(fault) => is_fault(rt.alloc(), row, fault),
    }
}

/// Checks that the calls of all scenarios return what they say.
pub(crate) fn are_answered(rt: &(impl Abort + AllocGlobal + Threads + Wait + Sync), rows: &[Row]) {
    for row in rows {
        if is_answered(rt, row) != Ok(true) {
            panic!(rt; "{}", row.name)
        }
    }
}
