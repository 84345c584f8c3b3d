//! How far the names of a view have got in their calls. Only the proofs use it.

use fak_core::Phase;
use std::collections::LinkedList;

/// The phases of the names of a view. No value of this type is made.
pub enum Phases<T> {
    /// All names are at this phase.
    Alike(Phase<T>),
    /// Each of these names is at a phase of its own.
    Each(LinkedList<(u64, Phase<T>)>),
}
