//! The rows of a replay.

use fak_core::{CoreFault, Line};

/// One row of a replay: an atomic step, or an event of a seat that was refused.
#[derive(Clone, Copy)]
pub enum Row {
    Moved(Line),
    Refused(u64, CoreFault),
}
