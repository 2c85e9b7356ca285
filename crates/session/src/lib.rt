// What the cached edits promise, and demand 3 over every list of them: definitions in specs/, the theorem in proofs/Demand.antt.
#![tactic(auto)]

mod answers;

pub use answers::Edited;
