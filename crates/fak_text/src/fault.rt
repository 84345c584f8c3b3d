//! Why an input could not be read.

ghost use Rattle.std.specs.Prelude.{◌≡◌};
ghost use Rattle.fak_text.specs.declared.fault.TextFault.TheVariants.{Memory};

use std::alloc::{AllocError, AllocFailed};
use std::fmt;
use thiserror::Error;

/// A key of an input, or the whole input.
#[derive(Clone, Copy, Debug, PartialEq, Eq)]
pub enum Field {
    /// The whole input.
    Input,
    Object,
    Bound,
    Size,
    Seats,
    Events,
    Marks,
    Version,
    Slots,
    Births,
    Quantum,
    Stint,
    Semaphores,
    Files,
    Programs,
    Start,
}

impl Field {
    ghost use Rattle.fak_text.specs.Fields.{name_of};

    /// The name of the key, or `input`.
    pub fn name(self) -> &'static str
        ensures { result.now ≡ name_of self }
    {
        match self {
            Field::Input => "input",
            Field::Object => "object",
            Field::Bound => "bound",
            Field::Size => "size",
            Field::Seats => "seats",
            Field::Events => "events",
            Field::Marks => "marks",
            Field::Version => "version",
            Field::Slots => "slots",
            Field::Births => "births",
            Field::Quantum => "quantum",
            Field::Stint => "stint",
            Field::Semaphores => "semaphores",
            Field::Files => "files",
            Field::Programs => "programs",
            Field::Start => "start",
        }
    }
}

impl fmt::Display for Field {
    ghost use Rattle.std.specs.Prelude.{Some};
    ghost use Rattle.fak_text.specs.Fields.{name_of};

    ghost output = { λ field. Some (name_of field) };

    fn fmt<W: fmt::Write>(&self, f: &mut fmt::Formatter<W>) -> fmt::Result {
        f.write_str(self.name())
    }
}

/// The first fault of an input, or out of memory while it is read.
#[derive(Clone, Copy, Debug, PartialEq, Eq, Error)]
pub enum TextFault {
    /// The input is no JSON value, as `serde_json` reads it.
    #[error("fak: input is not JSON")]
    NotJson,
    /// A key that has to be there is absent.
    #[error("fak: missing field {0}")]
    Missing(Field),
    /// The value of a key has another type, or is out of range.
    #[error("fak: field {0} out of range")]
    Range(Field),
    /// The event, mark or step of this index has an unknown name.
    #[error("fak: unknown operation at {0}")]
    UnknownOp(u64),
    /// There was no memory.
    #[error("fak: out of memory")]
    Memory,
}

impl From<AllocError> for TextFault {
    ghost from_gives = { λ _ e. e ≡ Memory };

    fn from(_e: AllocError) -> TextFault {
        TextFault::Memory
    }
}

impl<T: Drop> From<AllocFailed<T>> for TextFault {
    ghost from_gives = { λ _ e. e ≡ Memory };

    fn from(_e: AllocFailed<T>) -> TextFault {
        TextFault::Memory
    }
}
