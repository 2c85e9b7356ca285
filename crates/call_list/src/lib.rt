// The list of calls that `edits` reads before the job (docs/EDITS.md): its form, and its reader.
#![tactic(auto)]

mod calls;
mod number;

pub use calls::read_calls;
