//! Runs scripts on processors that share objects, and reports what became of each process, as a `Report` or as its text.
#![tactic(auto)]

mod ending;
mod fault;
mod run_threads;
mod running;

pub use fak_model::FileEntry;
pub use fak_run::{Fault, FreeGate, Gate, Outcome, Printed, ProcessRow, Report, laws, report_text};
pub use run_threads::{MOST_PROCESSORS, run, run_to_text};
pub use running::{run_one, run_one_to_text};
