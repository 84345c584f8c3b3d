//! What is read from texts, and the place of the first fault of each.

use fak_text::{Script, Step, TextFault, read_history, read_schedule, read_script};
use std::alloc::{AllocError, Global};
use std::process::Abort;

/// What a text is read as.
#[derive(Clone, Copy)]
pub enum Input {
    Schedule,
    History,
    Script,
}

impl Input {
    /// The fault of these bytes, if they have one.
    pub fn fault(self, alloc: Global, bytes: &[u8]) -> Option<TextFault> {
        match self {
            Input::Schedule => read_schedule(alloc, bytes).err(),
            Input::History => read_history(alloc, bytes).err(),
            Input::Script => read_script(alloc, bytes).err(),
        }
    }

    /// The fault of a text, or that there was no memory for it.
    pub fn fault_of(self, alloc: Global, made: Result<String, AllocError>) -> Option<TextFault> {
        match made {
            Ok(text) => self.fault(alloc, text.as_bytes()),
            Err(_) => Some(TextFault::Memory),
        }
    }
}

/// The first step of the first program.
pub fn first_step(script: &Script) -> Option<&Step> {
    script.programs().first()?.first()
}

/// Checks that this holds, at this text.
pub fn holds_at(rt: &impl Abort, holds: bool, text: &str) {
    assert!(rt; holds, "at {text}");
}

/// Checks that a text was created, and is this one.
pub fn is_made(rt: &impl Abort, made: Result<String, AllocError>, want: &str) {
    let is_so = match made {
        Ok(text) => text.as_str() == want,
        Err(_) => false,
    };
    holds_at(rt, is_so, want);
}

/// Checks that each of these, between the two texts, is an input with this fault.
pub fn have_faults(
    rt: &(impl Abort + AllocGlobal),
    input: Input,
    before: &str,
    after: &str,
    rows: &[(&str, TextFault)],
) {
    for &(row, want) in rows {
        let made = [before, row, after].concat(rt.alloc());
        holds_at(rt, input.fault_of(rt.alloc(), made) == Some(want), row);
    }
}
