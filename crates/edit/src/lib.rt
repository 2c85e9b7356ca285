// Edits of a path, after 000: an anchor put into a segment, a subpath turned round.
#![tactic(auto, unfolding(crate::specs::Gap::gapped, crate::specs::Reversed::turned, crate::specs::Split::halves, crate::specs::Split::split_shapes, cut::specs::Near::shifted))]

mod gap;
mod reversal;
mod splitting;

pub use gap::shift_up;
pub use reversal::{reversed, turned};
pub use splitting::{Halved, count_up, first_out, halves, put_halves, shifted, split};
