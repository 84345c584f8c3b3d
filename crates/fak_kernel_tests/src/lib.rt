//! The tests of `fak_kernel`. Scripts with known reports check that the definitions are those of the formats, and that a
//! run with ample memory returns a report. A plain checker of what a run conserves judges the reports of runs on several
//! processors.
#![tactic(auto)]

mod draws;

pub use draws::Draws;

#[cfg(test)]
mod drawn_scripts;
#[cfg(test)]
mod examples;
#[cfg(test)]
mod faults;
#[cfg(test)]
mod gates;
#[cfg(test)]
mod judge;
#[cfg(test)]
mod judged;
#[cfg(test)]
mod runs;
#[cfg(test)]
mod scripts;
#[cfg(test)]
mod texts;
#[cfg(test)]
mod told;
#[cfg(test)]
mod turns;
#[cfg(test)]
mod worn;
