//! What C has of a seat: one pointer.

ghost use Rattle.std.specs.Prelude.{◌≡◌, Option, Some, None, MatchOption};
ghost use Rattle.fak_handles.specs.declared.desk.Desk.{Desk};
ghost use Rattle.fak_handles.specs.Handles.{desk_coded, handle_owns};

use crate::desk::Desk;
use crate::parts::Parts;
use std::alloc::Global;
use std::marker::Model;
use std::ptr::null_mut;

/// Owns a seat with a share of its object, or nothing if the pointer is null.
#[repr(C)]
pub struct Handle {
    at: *mut u8,
    alloc: Global,
    pub ghost desk: { Option Desk } by { desk_coded },
}

impl Model for Handle {
    ghost also_owns = { λ h. handle_owns h.alloc h.at h.desk };
}

impl Handle {
    ghost use Rattle.std.specs.Borrow.{sem};
    ghost use Rattle.fak_handles.specs.DeskLending.{LendsDesk};

    /// The empty handle.
    pub fn none(alloc: Global) -> Handle
        ensures { result.desk ≡ None }
    {
        Handle {
            at: null_mut(),
            alloc,
        }
    }

    fn of_parts(parts: Parts<Desk, Global>) -> Handle
        ensures { result.desk ≡ Some parts.value }
    {
        let Parts { ptr, alloc } = parts;
        Handle {
            at: ptr as *mut u8,
            alloc,
        }
    }

    /// Lends the desk of the handle, if it has one.
    pub fn desk(&mut self) -> Option<&mut Desk>
        ensures* writes_back { sem 𝓛 (LendsDesk self.entry result) }
        ensures value { MatchOption result (self.old.desk ≡ None) (λ r. self.old.desk ≡ Some r.now) }
    {
        if self.at.is_null() {
            return None;
        }
        unsafe { Some(&mut *(self.at as *mut Desk)) }
    }

    fn into_parts(self) -> Option<Parts<Desk, Global>>
        ensures { MatchOption result (self.desk ≡ None) (λ p. self.desk ≡ Some p.value) }
    {
        let Handle { at, alloc } = self;
        if at.is_null() {
            None
        } else {
            Some(Parts {
                ptr: at as *mut Desk,
                alloc,
            })
        }
    }
}

impl Handle {
    /// The handle of this desk.
    pub fn of(desk: Box<Desk, Global>) -> Handle
        ensures { result.desk ≡ Some desk.value }
    {
        Handle::of_parts(Parts::of(desk))
    }

    /// The desk of the handle, if it has one.
    pub fn into_box(self) -> Option<Box<Desk, Global>>
        ensures { MatchOption result (self.desk ≡ None) (λ b. self.desk ≡ Some b.value) }
    {
        match self.into_parts() {
            Some(parts) => Some(parts.into_box()),
            None => None,
        }
    }
}

impl Drop for Handle {
    fn drop(self) {
        match self.into_parts() {
            Some(parts) => drop(parts.into_box()),
            None => {}
        }
    }
}

/// The seat and its share of the object may go to another thread.
unsafe impl Send for Handle {}
