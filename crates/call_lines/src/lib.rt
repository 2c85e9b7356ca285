// The lines that `edits` prints of its calls: what was refused, or which places were recut.
#![tactic(auto)]

mod lines;

pub use lines::put_calls;
