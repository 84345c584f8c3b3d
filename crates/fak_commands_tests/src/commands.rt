//! Command lines.

use crate::answers::words_of;
use fak_commands::{Command, MainFault, command_of};
use std::alloc::{AllocError, Global};
use std::process::Abort;

/// What the words of a line ask for.
pub(crate) fn asked(alloc: Global, line: &str) -> Result<Result<Command, MainFault>, AllocError> {
    let words = words_of(alloc, line)?;
    Ok(command_of(alloc, words))
}

/// Checks that the lines ask for the commands next to them.
fn ask_for(rt: &(impl Abort + AllocGlobal), rows: &[(&str, Command)]) {
    for &(line, command) in rows {
        if asked(rt.alloc(), line) != Ok(Ok(command)) {
            panic!(rt; "at {line}")
        }
    }
}

/// Checks that no line is a command.
fn are_refused(rt: &(impl Abort + AllocGlobal), lines: &[&str]) {
    for &line in lines {
        if asked(rt.alloc(), line) != Ok(Err(MainFault::Usage)) {
            panic!(rt; "at {line}")
        }
    }
}

#[test]
fn command_lines(rt: HostRuntime) {
    const ROWS: &[(&str, Command)] = &[
        ("fak replay", Command::Replay),
        ("other replay", Command::Replay),
        ("fak check", Command::Check),
        ("fak run", Command::Run(1)),
        ("fak replay --", Command::Replay),
    ];
    const LINES: &[&str] = &[
        "fak run 2",
        "fak",
        "fak copy",
        "fak replay extra",
        "fak -- replay",
        "fak replay -- replay",
        "fak run -- --processors 2",
        "fak help",
        "fak --help",
        "fak -h",
        "fak replay --help",
        "fak --version",
        "fak -V",
    ];
    ask_for(&rt, ROWS);
    are_refused(&rt, LINES);
}

/// Finds what the option asks for in both of its spellings.
fn asks_for(rt: &(impl Abort + AllocGlobal), processors: u64, want: Result<Command, MainFault>) {
    for between in ["=", " "] {
        let line = format!(in rt.alloc(); "fak run --processors{between}{processors}").expect(
            rt, "memory",
        );
        assert!(rt; asked(rt.alloc(), &line) == Ok(want), "at {line}");
    }
}

#[test]
fn each_number_of_processors(rt: HostRuntime) {
    for processors in 1..9u64 {
        asks_for(&rt, processors, Ok(Command::Run(processors)));
    }
    asks_for(&rt, 0, Err(MainFault::Usage));
    for processors in 9..300u64 {
        asks_for(&rt, processors, Err(MainFault::Usage));
    }
    for place in 4..64u32 {
        asks_for(&rt, 1u64 << place, Err(MainFault::Usage));
        asks_for(&rt, (1u64 << place) | 1, Err(MainFault::Usage));
    }
}

/// Checks that this word, in place of a command and after each command, is refused.
fn is_no_word(rt: &(impl Abort + AllocGlobal), word: &str) {
    for before in ["fak", "fak replay", "fak check", "fak run"] {
        for after in ["", " 2", "=2", "2", " replay", " run"] {
            let line = format!(in rt.alloc(); "{before} {word}{after}").expect(rt, "memory");
            are_refused(rt, &[line.as_str()]);
        }
    }
}

#[test]
fn no_option_is_one_character(rt: HostRuntime) {
    for code in b'!'..=b'~' {
        if code != b'-' {
            let option = format!(in rt.alloc(); "-{}", code as char).expect(&rt, "memory");
            is_no_word(&rt, &option);
        }
    }
}

#[test]
fn no_option_is_a_beginning_of_another(rt: HostRuntime) {
    for name in ["processors", "help", "version"] {
        for end in 1..name.len() {
            let option = format!(in rt.alloc(); "--{}", &name[..end]).expect(&rt, "memory");
            is_no_word(&rt, &option);
        }
    }
}

#[test]
fn no_command_is_a_beginning_of_another(rt: HostRuntime) {
    for name in ["replay", "check", "run", "help"] {
        for end in 1..name.len() {
            let line = format!(in rt.alloc(); "fak {}", &name[..end]).expect(&rt, "memory");
            are_refused(&rt, &[line.as_str()]);
        }
    }
}

#[test]
fn words_that_are_like_others(rt: HostRuntime) {
    const WORDS: &[&str] = &[
        "--Processors",
        "--PROCESSORS",
        "--processorss",
        "--processor",
        "--proc",
        "--procs",
        "-processors",
        "processors",
        "--cpu",
        "--cpus",
        "--cores",
        "--threads",
        "--jobs",
        "--workers",
        "--count",
        "--number",
        "--parallel",
        "Replay",
        "REPLAY",
        "replays",
        "Check",
        "CHECK",
        "checks",
        "Run",
        "RUN",
        "runs",
        "rerun",
        "start",
        "exec",
        "test",
        "verify",
        "judge",
        "trace",
        "serve",
        "help",
        "--help",
        "version",
        "--version",
        "--replay",
        "--check",
        "--run",
    ];
    for &word in WORDS {
        is_no_word(&rt, word);
    }
}

#[test]
fn processors_of_a_run(rt: HostRuntime) {
    const ROWS: &[(&str, Command)] = &[
        ("fak run --processors 1", Command::Run(1)),
        ("fak run --processors 2", Command::Run(2)),
        ("fak run --processors=7", Command::Run(7)),
        ("fak run --processors 8", Command::Run(8)),
    ];
    const LINES: &[&str] = &[
        "fak run --processors=0",
        "fak run --processors 0",
        "fak run --processors 9",
        "fak run --processors 18446744073709551616",
        "fak run --processors -1",
        "fak run --processors two",
        "fak run --processors 1.0",
        "fak run --processors=",
        "fak run --processors",
        "fak run --processors 2 3",
        "fak run --processors 2 --processors 2",
        "fak run --processor 2",
        "fak --processors 2 run",
        "fak replay --processors 2",
        "fak check --processors=2",
    ];
    ask_for(&rt, ROWS);
    are_refused(&rt, LINES);
}
