//! A handle on a cache line of its own.

ghost use Rattle.std.specs.Prelude.{◌≡◌, None, Some, MatchOption};

use crate::desk::Desk;
use crate::handle::Handle;
use crate::seat_kind::SeatKind;
use std::alloc::Global;
use std::mem;

/// What C declares as `fak_c_seat`: a handle with unused bytes on both sides, so that nothing else lies on its line of 64
/// bytes, wherever C puts it. The calls that open, move and give up write the handle; the others write the seat behind it.
#[derive(Drop)]
#[repr(C)]
pub struct PaddedHandle {
    pub(crate) before: [u64; 8],
    pub handle: Handle,
    pub(crate) after: [u64; 7],
}

impl PaddedHandle {
    ghost use Rattle.std.specs.Borrow.{LendsIf, sem};
    ghost use Rattle.fak_handles.specs.contracts.padded_handle.PaddedHandle.{the_row};
    ghost use Rattle.fak_handles.specs.DeskLending.{with_seat_at};

    /// Takes the desk out; the handle is empty then.
    pub fn take(&mut self, alloc: Global) -> Option<Box<Desk, Global>>
        ensures desk { MatchOption result (self.old.handle.desk ≡ None) (λ b. self.old.handle.desk ≡ Some b.value) }
        ensures empty { self.new.handle.desk ≡ None }
    {
        mem::replace(&mut self.handle, Handle::none(alloc)).into_box()
    }

    /// Puts a desk in. What was there is given up.
    pub fn put(&mut self, desk: Box<Desk, Global>)
        ensures { self.new.handle.desk ≡ Some desk.value }
    {
        self.handle = Handle::of(desk);
    }

    /// Lends the seat of this kind. `None` if the handle is empty, or has a seat of another kind.
    pub fn lend<K: SeatKind>(&mut self) -> Option<&mut K>
        ensures* writes_back { sem 𝓛 (LendsIf the_row K.row self.entry result
            (with_seat_at K.with_seat self.entry.now self.entry.now.handle.desk) self.entry.now) }
        ensures value { MatchOption result (K.seat_in self.old.handle.desk ≡ None)
            (λ r. K.seat_in self.old.handle.desk ≡ Some r.now) }
    {
        match self.handle.desk() {
            Some(desk) => K::lend(desk),
            None => None,
        }
    }
}

fn crosses<T: Send>() {}

/// Holds since a handle may go to another thread: needs the proof of that.
pub fn handles_cross() {
    crosses::<PaddedHandle>()
}
