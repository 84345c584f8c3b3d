//! The commands, from words and bytes.

use super::inputs::{HISTORY, IDLE, SCHEDULE, SCRIPT};
use crate::printing::{On, show, show_count, show_text};
use crate::retrying::try_twice;
use fak_commands::{
    Answer, Command, MainFault, check, command_of, replay, run_script, run_words, serve,
};
use std::alloc::{AllocError, Global};
use std::fmt::Display;
use std::marker::Sync;
use std::sync::Wait;
use std::thread::Threads;

/// The words of a command line for a run on this many processors.
fn words_of(alloc: Global, processors: u64) -> Result<Vec<String>, AllocError> {
    let mut words = Vec::new(alloc);
    for word in ["fak", "run", "--processors"] {
        let word = String::from_str(alloc, word)?;
        words.push(word)?;
    }
    let number = processors.to_string(alloc)?;
    words.push(number)?;
    Ok(words)
}

/// The command that they ask for.
fn run_command(alloc: Global) -> Result<Command, MainFault> {
    let words = words_of(alloc, 1)?;
    command_of(alloc, words)
}

/// The status and the output of a command.
fn served(
    rt: &(impl AllocGlobal + Threads + Wait + Sync),
    command: Command,
    input: &str,
) -> Result<Answer, MainFault> {
    let alloc = rt.alloc();
    let mut text = Vec::new(alloc);
    match serve(rt, alloc, command, &mut input.as_bytes(), &mut text) {
        Ok(status) => Ok(Answer { status, text }),
        Err(fault) => {
            drop(text);
            Err(fault)
        }
    }
}

/// Prints what the command of this name returned.
fn show_answer<N: Display + Drop>(rt: &impl Print, name: N, answer: &Answer) {
    let _ = println!(rt; "status {}", answer.status);
    show_text(rt, name, &answer.text);
}

/// Replays a schedule.
fn replay_schedule(rt: &(impl Print + Eprint + AllocGlobal)) -> bool {
    let answer = try_twice!(rt, "replay", replay(rt.alloc(), SCHEDULE.as_bytes()));
    show_answer(rt, "replay", &answer);
    true
}

/// Judges a history.
fn check_history(rt: &(impl Print + Eprint + AllocGlobal)) -> bool {
    let answer = try_twice!(rt, "check", check(rt.alloc(), HISTORY.as_bytes()));
    show_answer(rt, "check", &answer);
    true
}

/// Runs a script.
fn run_once(rt: &(impl Print + Eprint + AllocGlobal + Threads + Wait + Sync)) -> bool {
    let answer = try_twice!(
        rt,
        "run_script",
        run_script(rt, rt.alloc(), SCRIPT.as_bytes(), 1)
    );
    show_answer(rt, "run_script", &answer);
    true
}

/// Runs the script that has nothing to do, by the words for this many processors. If that fails, it prints the fault, and is false.
fn run_idle_words(
    rt: &(impl Print + Eprint + AllocGlobal + Threads + Wait + Sync),
    processors: u64,
) -> bool {
    let alloc = rt.alloc();
    let words = try_twice!(rt, "words_of", words_of(alloc, processors));
    let count = words.len();
    let mut text = Vec::new(alloc);
    let mut faults = Vec::new(alloc);
    let status = run_words(
        rt,
        alloc,
        words,
        &mut IDLE.as_bytes(),
        &mut text,
        &mut faults,
    );
    if status != 0 {
        let fault = str::from_utf8(&faults).unwrap_or("no text");
        let _ = eprint!(rt; "run_words on {processors}: {fault}");
        return false;
    }
    show_count(rt, "words_of", count, "words");
    show_text(rt, On("run_words", processors), &text);
    true
}

/// Runs the script that has nothing to do on 1 to 8 processors, as `kernel_runs` does: from its bytes, and from words.
pub(super) fn run_idle_script(
    rt: &(impl Print + Eprint + AllocGlobal + Threads + Wait + Sync),
) -> bool {
    for processors in 1..9u64 {
        let answer = try_twice!(
            rt,
            On("run_script", processors),
            run_script(rt, rt.alloc(), IDLE.as_bytes(), processors)
        );
        show_answer(rt, On("run_script", processors), &answer);
        // A run that was refused is made a second time.
        if !run_idle_words(rt, processors) && !run_idle_words(rt, processors) {
            return false;
        }
    }
    true
}

/// Reads a command line, and does what it asks for.
fn serve_command(rt: &(impl Print + Eprint + AllocGlobal + Threads + Wait + Sync)) -> bool {
    let command = try_twice!(rt, "command_of", run_command(rt.alloc()));
    show(rt, "command_of", &command);
    let answer = try_twice!(rt, "serve", served(rt, command, SCRIPT));
    show_answer(rt, "serve", &answer);
    true
}

/// Does each command.
pub(super) fn do_all(rt: &(impl Print + Eprint + AllocGlobal + Threads + Wait + Sync)) -> bool {
    replay_schedule(rt) && check_history(rt) && run_once(rt) && serve_command(rt)
}
