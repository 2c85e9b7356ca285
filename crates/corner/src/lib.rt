// Corners of a path and their cuts, after 000: a corner is an anchor that is not smooth, where two sides meet at an angle.
#![tactic(auto, unfolding(crate::specs::Corner::with_lengths, crate::specs::Corner::sharp, crate::specs::Corner::cos, crate::specs::Corner::sin, crate::specs::Corner::setback, crate::specs::Corner::radius_at_setback, crate::specs::Corner::max_radius, crate::specs::Corner::room, crate::specs::Corner::max_radius_beside, crate::specs::Corner::on_bisector, crate::specs::Corner::radius_change, crate::specs::Cut::straight_sides, crate::specs::Cut::cross_ahead, crate::specs::Cut::tangent_handles, crate::specs::Cut::round_handles, crate::specs::Cut::rounded, crate::specs::Cut::inverted, crate::specs::Cut::handles, crate::specs::Cut::cut, crate::specs::Kinds::kind_of))]

mod corner;
mod cut;
mod kind;

pub use corner::Corner;
pub use cut::{Cut, Handles, Lengths};
pub use kind::{CornerKind, UnknownKind};
