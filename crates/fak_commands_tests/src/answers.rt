//! What the commands return for an input, compared with what is wanted.

use crate::rows::Row;
use crate::rows::schedules::ROOM_REFUSED_AT_ITS_TEST;
use fak_commands::{Answer, Command, MainFault, check, replay, run_script};
use fak_text::TextFault;
use std::alloc::{AllocError, Global};
use std::marker::Sync;
use std::process::Abort;
use std::sync::Wait;
use std::thread::Threads;

/// A schedule in which a room has no place for the second claim.
pub(crate) const ROOM: Row = ROOM_REFUSED_AT_ITS_TEST;

/// Adds a word.
pub(crate) fn add_word(
    alloc: Global,
    words: &mut Vec<String>,
    word: &str,
) -> Result<(), AllocError> {
    let word = String::from_str(alloc, word)?;
    words.push(word)?;
    Ok(())
}

/// The words of a command line.
pub(crate) fn words_of(alloc: Global, line: &str) -> Result<Vec<String>, AllocError> {
    let mut words = Vec::new(alloc);
    for word in line.split(' ') {
        add_word(alloc, &mut words, word)?;
    }
    Ok(words)
}

/// Whether the bytes are this text.
pub(crate) fn is_text(bytes: &[u8], text: &str) -> bool {
    *bytes == *text.as_bytes()
}

/// The answer of a command to an input.
pub(crate) fn answer_to(
    rt: &(impl AllocGlobal + Threads + Wait + Sync),
    command: Command,
    input: &[u8],
) -> Result<Answer, MainFault> {
    match command {
        Command::Replay => replay(rt.alloc(), input),
        Command::Check => check(rt.alloc(), input),
        Command::Run(processors) => run_script(rt, rt.alloc(), input, processors),
    }
}

/// Whether the command's answer to the input has this status and this text.
pub(crate) fn is_answer(
    rt: &(impl AllocGlobal + Threads + Wait + Sync),
    command: Command,
    input: &str,
    status: u8,
    text: &str,
) -> bool {
    match answer_to(rt, command, input.as_bytes()) {
        Ok(answer) => is_text(&answer.text, text) && answer.status == status,
        Err(_) => false,
    }
}

/// Checks that the command's answer to the input has this status and this text.
pub(crate) fn has_answer(
    rt: &(impl Abort + AllocGlobal + Threads + Wait + Sync),
    command: Command,
    input: &str,
    status: u8,
    text: &str,
) {
    if !is_answer(rt, command, input, status, text) {
        panic!(rt; "{command:?} at {input}")
    }
}

/// The fault of a command at an input.
pub(crate) fn fault_at(
    rt: &(impl AllocGlobal + Threads + Wait + Sync),
    command: Command,
    input: &[u8],
) -> Option<MainFault> {
    match answer_to(rt, command, input) {
        Ok(_) => None,
        Err(fault) => Some(fault),
    }
}

/// Checks that the command has this fault at the input.
pub(crate) fn has_fault(
    rt: &(impl Abort + AllocGlobal + Threads + Wait + Sync),
    command: Command,
    input: &str,
    fault: MainFault,
) {
    if fault_at(rt, command, input.as_bytes()) != Some(fault) {
        panic!(rt; "{command:?} at {input}")
    }
}

/// Checks that the command has the faults next to the inputs.
pub(crate) fn have_faults(
    rt: &(impl Abort + AllocGlobal + Threads + Wait + Sync),
    command: Command,
    rows: &[(&str, TextFault)],
) {
    for &(input, fault) in rows {
        has_fault(rt, command, input, MainFault::Text(fault));
    }
}
