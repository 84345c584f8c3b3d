//! A program that serves commands from bytes that it has to bytes that it keeps.

ghost use Rattle.std.specs.Prelude.{IfOk, Ok};
ghost use Rattle.fak_replay.specs.Answers.{IsReply};

use fak_commands::{Command, MainFault, serve};
use std::alloc::Global;
use std::marker::Sync;
use std::sync::Wait;
use std::thread::Threads;

/// The status of a command that was served, and what was written.
#[derive(Debug, PartialEq, Eq, Drop)]
pub struct Served {
    pub status: u8,
    pub written: Vec<u8>,
}

/// Serves a command over an input in memory: what was written is its reply to that very input.
pub fn serve_bytes(
    rt: &(impl Threads + Wait + Sync),
    alloc: Global,
    command: Command,
    input: &[u8],
) -> Result<Served, MainFault>
    ensures { IfOk result (λ served. IsReply command input.now (Ok (served.status, served.written.items))) }
{
    let mut reader = input;
    let mut written = Vec::new(alloc);
    let status = serve(rt, alloc, command, &mut reader, &mut written)?;
    Ok(Served { status, written })
}
