// Points, affine maps and boxes in the plane, after 001 (geom.rs): every operation rounds by itself, in 001's order.
#![tactic(auto, unfolding(crate::specs::Point::plus, crate::specs::Point::minus, crate::specs::Point::times, crate::specs::Point::point_in, crate::specs::Point::dot, crate::specs::Point::cross, crate::specs::Point::len, crate::specs::Point::dist, crate::specs::Point::lerp, crate::specs::Box::no_point, crate::specs::Box::grown, crate::specs::Box::is_empty))]

mod affine;
mod bounds;
mod point;

pub use affine::affine_apply;
pub use bounds::Bounds;
pub use point::{P, cross};
