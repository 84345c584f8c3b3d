//! One input and one output.

ghost use Rattle.std.specs.Prelude.{◌≡◌, ◌≢◌, ◌⊎◌, ℕ, List, take, IfErr, IfOk, IfSome};
ghost use Rattle.std.specs.Io.KnownBytes.{Appends, Keeps};
ghost use Rattle.fak_text.specs.Values.{most_kept};
ghost use Rattle.fak_places.specs.Places.{fault_in};
ghost use Rattle.fak_places.specs.Program.{said_of_read, status_of_place};
ghost use Rattle.fak_places.specs.declared.fault.WhereFault.TheVariants.{Memory, Read, Write};

use crate::fault::WhereFault;
use crate::fault_place::{Format, place_of};
use crate::ignored::ignored_keys;
use crate::repeated::repeated_keys;
use std::alloc::Global;
use std::fmt::Display;
use std::io::{ErrorKind, Read, Write};

/// How many bytes of the input are read at most: one more than an input may have.
const MOST_KEPT: u64 = 1_048_577;

/// What the program says of its version.
const VERSION: &str = "fak_where 0.1.0\n";

/// Reads the input, up to one byte more than shows that it is too long.
fn read_input<R: Read + Drop>(alloc: Global, reader: R) -> Result<Vec<u8>, WhereFault>
    ensures ok { IfOk result (λ kept. IfSome (R.Read.remaining reader) (λ input. kept.items ≡ take most_kept input)) }
    ensures err { IfErr result (λ e. (e ≡ Memory) ⊎ (e ≡ Read)) }
{
    let mut kept = Vec::new(alloc);
    match reader.take(MOST_KEPT).read_to_end(&mut kept) {
        Ok(_) => Ok(kept),
        Err(error) if error.kind() == ErrorKind::OutOfMemory => Err(WhereFault::Memory),
        Err(_) => Err(WhereFault::Read),
    }
}

/// Adds a line for each of these.
fn append_lines<D: Display>(alloc: Global, text: &mut String, lines: &[D]) -> Result<(), WhereFault>
    ensures { IfErr result (λ e. e ≡ Memory) }
{
    for line in lines {
        let line = format!(in alloc; "{line}\n")?;
        text.push_str(line.as_str())?;
    }
    Ok(())
}

/// What is said of an input that `fak` reads.
fn said_of_read(format: Format) -> &'static str
    ensures { result.now ≡ said_of_read format }
{
    match format {
        Format::History => "the form is right; fak check says whether the history is legal",
        _ => "nothing is wrong",
    }
}

/// The status and the text for an input. The status is 0 if nothing is wrong, else 1. The text has a line for the place, one for each
/// ignored key, and one for each repeated key.
fn answer_of(alloc: Global, format: Format, input: &[u8]) -> Result<(u8, String), WhereFault>
    ensures ok { IfOk result (λ answer. answer.0 ≡ status_of_place (fault_in format input.now)) }
    ensures err { IfErr result (λ e. e ≡ Memory) }
{
    let (status, mut text) = match place_of(alloc, format, input)? {
        None => (0, format!(in alloc; "{}\n", said_of_read(format))?),
        Some(place) => (1, format!(in alloc; "{place}\n")?),
    };
    append_lines(alloc, &mut text, &ignored_keys(alloc, format, input)?)?;
    append_lines(alloc, &mut text, &repeated_keys(alloc, format, input)?)?;
    Ok((status, text))
}

/// Writes a text whole.
fn write_text<W: Write>(writer: &mut W, text: &str) -> Result<(), WhereFault>
    ensures { IfErr result (λ e. e ≡ Write) }
{
    if writer.write_all(text.as_bytes()).is_err() {
        return Err(WhereFault::Write);
    }
    if writer.flush().is_err() {
        return Err(WhereFault::Write);
    }
    Ok(())
}

/// Writes the version. Returns the status, 0.
///
/// # Errors
///
/// `Write`.
pub fn print_version<W: Write>(writer: &mut W) -> Result<u8, WhereFault>
    ensures ok { IfOk result (λ status. status ≡ 0) }
    ensures err { IfErr result (λ e. e ≡ Write) }
{
    write_text(writer, VERSION)?;
    Ok(0)
}

/// Reads an input, and writes the place at which it is wrong and the keys that are ignored or repeated. Returns the status: 0 if nothing is
/// wrong, else 1.
///
/// # Errors
///
/// `Read` or `Memory`, then `Write`. On any fault except `Write` nothing was written.
pub fn serve<R: Read + Drop, W: Write>(
    alloc: Global,
    format: Format,
    reader: R,
    writer: &mut W,
) -> Result<u8, WhereFault>
    ensures ok { IfOk result (λ status. IfSome (R.Read.remaining reader)
        (λ input. status ≡ status_of_place (fault_in format input))) }
    ensures untouched { IfErr result (λ e. e ≢ Write
        → Keeps (W.Write.contents writer.old) (W.Write.contents writer.new)) }
{
    let input = read_input(alloc, reader)?;
    let (status, text) = answer_of(alloc, format, &input)?;
    write_text(writer, text.as_str())?;
    Ok(status)
}
