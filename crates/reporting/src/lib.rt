// What the program `edits` prints for a list of calls and a job: a line for each call, and the last text.
#![tactic(auto)]

mod outlines;
mod reports;

pub use reports::{Reported, report};
