//! Readers and writers that fail, or never end.

use crate::answers::{ROOM, is_text};
use fak_commands::{Command, MainFault, serve};
use fak_text::{Field, TextFault};
use std::alloc::Global;
use std::io;
use std::io::{ErrorKind, Read, Write};
use std::marker::Sync;
use std::process::Abort;
use std::sync::Wait;
use std::thread::Threads;

/// A reader that gives up to this many bytes at once, but only one at the read of one number, and fails from that of
/// another.
#[derive(Drop)]
struct Uneven<'a> {
    rest: &'a [u8],
    most: usize,
    reads: u32,
    short_read: u32,
    failing_read: u32,
}

impl Uneven<'_> {
    /// A reader that gives its bytes one by one, and fails after this many reads.
    fn faltering(rest: &[u8], reads: u32) -> Uneven<'_> {
        Uneven {
            rest,
            most: 1,
            reads: 0,
            short_read: 0,
            failing_read: reads,
        }
    }
}

impl Read for Uneven<'_> {
    fn read(&mut self, buf: &mut [u8]) -> io::Result<usize> {
        if self.reads == self.failing_read {
            return Err(io::Error::from(ErrorKind::Other));
        }
        let most = if self.reads == self.short_read {
            1
        } else {
            self.most
        };
        self.reads = self.reads.saturating_add(1);
        let count = self.rest.len().min(buf.len()).min(most);
        buf[..count].copy_from_slice(&self.rest[..count]);
        self.rest = &self.rest[count..];
        Ok(count)
    }
}

/// A reader of this many spaces, one by one, that counts how often it is read.
#[derive(Drop)]
struct Spaces {
    left: u64,
    reads: u64,
}

impl Read for Spaces {
    fn read(&mut self, buf: &mut [u8]) -> io::Result<usize> {
        self.reads = self.reads.saturating_add(1);
        if buf.is_empty() || self.left == 0 {
            return Ok(0);
        }
        self.left -= 1;
        buf[0] = b' ';
        Ok(1)
    }
}

/// A writer that takes this many bytes, and then fails; or fails when it is to pass them on.
#[derive(Drop)]
struct Full {
    room: usize,
    is_touched: bool,
    fails_at_flush: bool,
}

impl Full {
    fn new(room: usize, fails_at_flush: bool) -> Full {
        Full {
            room,
            is_touched: false,
            fails_at_flush,
        }
    }
}

impl Write for Full {
    fn write(&mut self, buf: &[u8]) -> io::Result<usize> {
        self.is_touched = true;
        if self.room == 0 {
            return Err(io::Error::from(ErrorKind::Other));
        }
        let count = self.room.min(buf.len());
        self.room -= count;
        Ok(count)
    }

    fn flush(&mut self) -> io::Result<()> {
        if self.fails_at_flush {
            return Err(io::Error::from(ErrorKind::Other));
        }
        Ok(())
    }
}

/// Whether a replay of what is read ends so, and writes these rows.
fn is_served<R: Read>(
    rt: &(impl Threads + Wait + Sync),
    alloc: Global,
    reader: &mut R,
    want: Result<u8, MainFault>,
    rows: &str,
) -> bool {
    let mut written = Vec::new(alloc);
    let answer = serve(rt, alloc, Command::Replay, reader, &mut written);
    is_text(&written, rows) && answer == want
}

/// The fault of a replay into a writer.
fn fault_into<W: Write>(
    rt: &(impl Threads + Wait + Sync),
    alloc: Global,
    input: &str,
    writer: &mut W,
) -> Option<MainFault> {
    let mut reader = input.as_bytes();
    match serve(rt, alloc, Command::Replay, &mut reader, writer) {
        Ok(_) => None,
        Err(fault) => Some(fault),
    }
}

/// Checks that this many spaces have this fault, with nothing written, after this many reads.
fn have_fault(
    rt: &(impl Abort + AllocGlobal + Threads + Wait + Sync),
    left: u64,
    reads: u64,
    fault: MainFault,
) {
    let mut spaces = Spaces { left, reads: 0 };
    let is_served = is_served(rt, rt.alloc(), &mut spaces, Err(fault), "");
    assert!(rt; is_served && spaces.reads == reads, "{left} spaces");
}

#[test]
fn serves_what_is_read(rt: HostRuntime) {
    assert!(rt;
        is_served(
            &rt,
            rt.alloc(),
            &mut ROOM.input.as_bytes(),
            Ok(0),
            ROOM.output
        )
    );
}

#[test]
fn a_failing_reader_is_a_read_fault(rt: HostRuntime) {
    for reads in [0, 1, 2, 20] {
        let mut reader = Uneven::faltering(ROOM.input.as_bytes(), reads);
        let want = Err(MainFault::Read);
        assert!(rt;
            is_served(&rt, rt.alloc(), &mut reader, want, ""),
            "{reads}"
        );
    }
    let mut reader = Uneven::faltering(ROOM.input.as_bytes(), 2000);
    assert!(rt; is_served(&rt, rt.alloc(), &mut reader, Ok(0), ROOM.output));
}

#[test]
fn an_input_that_does_not_end_is_a_read_fault(rt: HostRuntime) {
    have_fault(&rt, u64::MAX, 2_097_152, MainFault::Read);
}

#[test]
fn an_input_that_ends_at_the_last_read_is_read(rt: HostRuntime) {
    let fault = MainFault::Text(TextFault::Range(Field::Input));
    have_fault(&rt, 2_097_151, 2_097_152, fault);
}

#[test]
fn an_input_is_at_most_1_048_576_bytes(rt: HostRuntime) {
    let fault = MainFault::Text(TextFault::Range(Field::Input));
    have_fault(&rt, 1_048_577, 1_048_578, fault);
    let fault = MainFault::Text(TextFault::NotJson);
    have_fault(&rt, 1_048_576, 1_048_577, fault);
}

#[test]
fn a_read_may_give_one_byte(rt: HostRuntime) {
    for short_read in 0..20 {
        let mut reader = Uneven {
            rest: ROOM.input.as_bytes(),
            most: 7,
            reads: 0,
            short_read,
            failing_read: u32::MAX,
        };
        assert!(rt;
            is_served(&rt, rt.alloc(), &mut reader, Ok(0), ROOM.output),
            "at {short_read}"
        );
    }
}

#[test]
fn a_failing_writer_is_a_write_fault(rt: HostRuntime) {
    for room in [0, 1] {
        let mut full = Full::new(room, false);
        let fault = fault_into(&rt, rt.alloc(), ROOM.input, &mut full);
        assert!(rt; fault == Some(MainFault::Write), "{room}");
    }
    let mut unused = Full::new(1, false);
    let fault = fault_into(&rt, rt.alloc(), "[", &mut unused);
    assert!(rt; fault == Some(MainFault::Text(TextFault::NotJson)));
    assert!(rt; !unused.is_touched);
}

#[test]
fn a_writer_that_fails_at_its_flush_is_a_write_fault(rt: HostRuntime) {
    let mut unflushed = Full::new(ROOM.output.len() + 1, true);
    let fault = fault_into(&rt, rt.alloc(), ROOM.input, &mut unflushed);
    assert!(rt; fault == Some(MainFault::Write));
    assert!(rt; unflushed.room == 1);
}
