// The job file (document 01, 'Job file and program'): little-endian words, and the order in which they may come.
#![tactic(auto)]

mod kinds;
mod order;
mod words;

pub use kinds::{Kind, UnknownKind};
pub use order::{Seen, refusal_of};
pub use words::{Word, number, word_at};
