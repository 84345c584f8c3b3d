//! The words of the command line.

ghost use Rattle.std.specs.Prelude.{◌≡◌, IfErr, map, string_bytes};
ghost use Rattle.std.specs.Result.{result_ok};
ghost use Rattle.fak_places.specs.Program.{format_named, format_asked, version_named, version_asked};
ghost use Rattle.fak_places.specs.declared.fault.WhereFault.TheVariants.{Usage};

use crate::fault::WhereFault;
use crate::fault_place::Format;
use std::alloc::Global;
use std::env::Args;
use std::io;
use std::io::ErrorKind;

/// The words, from the process's arguments. A word that is not UTF-8 is a usage fault.
pub fn words_of(alloc: Global, arguments: io::Result<Args>) -> Result<Vec<String>, WhereFault> {
    match arguments {
        Ok(words) => Ok(words.collect(alloc)?),
        Err(error) if error.kind() == ErrorKind::OutOfMemory => Err(WhereFault::Memory),
        Err(_) => Err(WhereFault::Usage),
    }
}

/// Whether a word asks for the version.
#[tactic(auto, unfolding(crate::specs::Program::version_named))]
fn names_version(name: &str) -> bool
    ensures { result ≡ version_named name.now }
{
    match name {
        "--version" => true,
        _ => false,
    }
}

/// Whether the words ask for the version: the first is the program's name, the second `--version`.
pub fn asks_version(words: &[String]) -> bool
    ensures { result ≡ version_asked (map string_bytes words.now) }
{
    if words.len() != 2 {
        return false;
    }
    names_version(words[1].as_str())
}

/// The format that a command of `fak` reads.
#[tactic(auto, unfolding(crate::specs::Program::format_named))]
fn format_of_command(name: &str) -> Option<Format>
    ensures { result ≡ format_named name.now }
{
    match name {
        "replay" => Some(Format::Schedule),
        "check" => Some(Format::History),
        "run" => Some(Format::Script),
        _ => None,
    }
}

/// The format that the words ask for: the first is the program's name, the second a command of `fak`.
pub fn format_of(words: &[String]) -> Result<Format, WhereFault>
    ensures ok { result_ok result ≡ format_asked (map string_bytes words.now) }
    ensures err { IfErr result (λ e. e ≡ Usage) }
{
    if words.len() != 2 {
        return Err(WhereFault::Usage);
    }
    format_of_command(words[1].as_str()).ok_or(WhereFault::Usage)
}
