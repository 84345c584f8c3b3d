//! The processes of a script, the list scheduler that defines how they end, the gate of a run, and its report with its
//! text.
#![tactic(auto)]

mod context;
mod fault;
mod gate;
pub mod laws;
mod report;
mod rows;
mod sleeper;
mod slot;
mod text;
mod told_report;

pub use context::{Context, Run};
pub use fault::Fault;
pub use gate::{FreeGate, Gate, Looks};
pub use report::{Outcome, ProcessRow, Report};
pub use rows::{add_rows, sort_rows};
pub use sleeper::Sleeper;
pub use slot::Slot;
pub use text::{Printed, print_brief, report_text};
pub use told_report::told_in_full;
