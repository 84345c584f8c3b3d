//! What a step of a call returns inside this crate.

use crate::standing::Outcome;
use crate::stepping::Wake;

/// The result of a step of a call that is not done, as `ChannelStep`. It has no item in it, so that no step moves one.
pub(crate) enum Progress {
    GoesOn,
    NotYet,
    Sleeps,
    Wakes(Wake),
}

/// Why the steps of a call stop.
pub(crate) enum Stop<T> {
    /// The call sleeps, or it is a try that would have to.
    Sleeps,
    /// The call is done.
    Ends(Outcome<T>),
}
