//! What the program prints: the name of each call, and what it returned.

use std::fmt::{Debug, Display};
use std::io::Write;
use std::{fmt, io};

/// The name of a call, with the number of processors that it was asked for.
#[derive(Clone, Copy, Drop)]
pub(crate) struct On(pub(crate) &'static str, pub(crate) u64);

impl Display for On {
    fn fmt<W: fmt::Write>(&self, f: &mut fmt::Formatter<W>) -> fmt::Result {
        let On(name, processors) = self;
        write!(f, "{name} on {processors}")
    }
}

/// Prints what the call of this name returned.
pub(crate) fn show<N: Display + Drop, T: Debug>(rt: &impl Print, name: N, value: &T) {
    let _ = println!(rt; "{name}: {value:?}");
}

/// Prints how many of these the call of this name returned.
pub(crate) fn show_count(rt: &impl Print, name: &str, count: usize, of: &str) {
    let _ = println!(rt; "{name}: {count} {of}");
}

/// Prints the text that the call of this name returned.
pub(crate) fn show_text<N: Display + Drop>(rt: &impl Print, name: N, text: &[u8]) {
    let _ = println!(rt; "{name}:");
    let mut writer = io::writer(rt);
    // What cannot be printed is missed in the output.
    let _ = writer.write_all(text);
    let _ = writer.write_all(b"\n");
}

/// Prints to standard error why the call of this name was refused.
pub(crate) fn tell_fault<N: Display + Drop, E: Debug>(rt: &impl Eprint, name: N, fault: &E) {
    let _ = eprintln!(rt; "{name}: {fault:?}");
}
