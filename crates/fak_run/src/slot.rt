//! A slot of a run.

ghost use Rattle.std.specs.Prelude.{◌≡◌, ◌<◌};

use crate::context::Run;
use std::fmt;
use std::marker::{Model, PhantomData};

/// A number below the script's number of slots.
#[derive(Drop)]
pub struct Slot<K: Run> {
    number: u64,
    of: PhantomData<K>,
}

impl<K: Run> Model for Slot<K> {
    ghost use Rattle.std.specs.Prelude.{ℕ, ◌<◌};

    ghost Value = { ℕ };

    ghost view = { λ s. s.number };

    ghost invariant = { λ s. s.number < K.script.slots };
}

impl<K: Run> Slot<K> {
    /// The slot of this number.
    pub fn new(number: u64) -> Slot<K>
        requires { number < K.script.slots }
        ensures { result ≡ number }
    {
        Slot {
            number,
            of: PhantomData,
        }
    }

    /// The number of the slot.
    pub fn number(&self) -> u64
        ensures value { result ≡ self.now }
        ensures range { self.now < K.script.slots }
    {
        self.number
    }
}

impl<K: Run> fmt::Debug for Slot<K> {
    fn fmt<W: fmt::Write>(&self, f: &mut fmt::Formatter<W>) -> fmt::Result {
        f.debug_struct("Slot")
            .field("number", &self.number)
            .finish_non_exhaustive()
    }
}
