// Cubic Bézier curves, after 000 (bezier.rs): a curve is its four control points.
#![tactic(auto, unfolding(crate::specs::Cubic::cubic_at, crate::specs::Cubic::deriv_at, crate::specs::Cubic::split_cubic, crate::specs::Cubic::subsegment, crate::specs::Limits::curve_in, geom::specs::Point::same, crate::specs::Sample::straight, crate::specs::Sample::steps, crate::specs::Sample::step_at))]

mod limits;
mod sampling;
mod subdivision;

pub use limits::curve_in_limit;
pub use sampling::{cubic_at, deriv_at, sample, step_at, steps, straight};
pub use subdivision::{Halves, split_cubic, subsegment};
