//! What goes through a queue.

ghost use Rattle.std.specs.Prelude.{◌≡◌, ℕ};

use std::alloc::Global;

/// An item, which is created from a number and shows it again.
pub trait Item: Drop {
    ghost shown: { Self → ℕ };

    /// The item of this number.
    fn of(alloc: Global, number: u64) -> Self
        ensures { shown result ≡ number };

    /// Its number.
    fn number(&self) -> u64
        ensures { result ≡ shown self.now };
}

impl Item for u64 {
    ghost shown = { λ x. x };

    fn of(_alloc: Global, number: u64) -> u64 {
        number
    }

    fn number(&self) -> u64 {
        *self
    }
}

/// An item that owns a `Vec`: 32 bytes, which are moved and never copied. The `Vec` has no block on the heap, so that no
/// figure has the allocator in it.
#[derive(Drop)]
pub struct OwnedItem {
    number: u64,
    words: Vec<u64>,
}

impl Item for OwnedItem {
    ghost shown = { λ parcel. parcel.number };

    fn of(alloc: Global, number: u64) -> OwnedItem {
        OwnedItem {
            number,
            words: Vec::new(alloc),
        }
    }

    fn number(&self) -> u64 {
        self.number
    }
}
