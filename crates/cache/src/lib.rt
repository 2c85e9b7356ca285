// The cut cache (document 01's kept outline): a drawing's cut place by place, twelve numbers and a flag each, beside the drawing. It is
// built from the drawing, and assembled to the cut outline.
#![tactic(auto)]

mod assembling;
mod building;
mod sizes;
mod writing;

pub use assembling::assemble;
pub use building::build;
pub use sizes::size_test;
pub use writing::{first_bad_place, place_in_limit};
