// What the passes of the corner cut share: a subpath in flat lists, the indices within reach of one, what each pass hands on, and
// what the cut leaves at an anchor. specs/ has the definitions of the cut, and proofs/ its locality.
#![tactic(auto, unfolding(crate::specs::Near::gap, crate::specs::Near::near, crate::specs::Near::around, crate::specs::Near::span_of))]

mod places;
mod rows;
mod subpath;

pub use places::{CUT_FLAG, Place, Trim};
pub use rows::Row;
pub use subpath::{Indices, Sub, Window, arrives, corner_at, leaves, near, span};
