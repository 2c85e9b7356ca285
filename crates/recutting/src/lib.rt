// The places within reach of an edit, recut in a stretch of its subpath: a plan, made from lists that are only read, and then written.
#![tactic(auto)]

mod plans;
mod stretches;

pub use plans::{Plan, plan_put, plan_recut, write_places};
pub use stretches::{Gathered, Stretch, gather, rolled, stretch_of};
