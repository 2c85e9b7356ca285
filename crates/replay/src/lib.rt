// A list of encoded calls, run one after the other on the fresh cache of a drawing. What `replay` ensures when it is done is demand 3,
// about its own answers and the lists at its own exit: specs/Claim.antt.
#![tactic(auto, unfolding(crate::specs::Kinds::call_kind))]

mod calls;
mod kind;
mod running;
mod telling;
mod testing;

pub use calls::replay;
