//! What the seats of a running object know. It exists only in proofs.

use crate::note::Note;
use std::collections::LinkedList;

/// What a seat, or several joined seats, know of a running object. It has a set of names. No value of this type is ever
/// made. `M` is a mark of the object's history, `P` a phase of a call.
#[derive(Debug)]
pub struct View<M, P> {
    /// Its names: all of them at the opening, one after a split, none once it is spent.
    pub names: LinkedList<u64>,
    /// The history that it has seen, newest mark first.
    pub seen: LinkedList<M>,
    /// The phase of its names' call; none for a spent view.
    pub phase: Option<P>,
    /// The tickets left of its names' stints.
    pub left: u64,
    /// The shorter of the two histories that its last join compared, newest mark first.
    pub told: LinkedList<M>,
    /// The names of the view that had that shorter history.
    pub told_names: LinkedList<u64>,
    /// What each of its names has noted, newest note first. A join forgets it.
    pub noted: Option<LinkedList<Note>>,
}
