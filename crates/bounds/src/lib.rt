// The box around a path, after 000's `bounds`.
#![tactic(auto, unfolding(crate::specs::Calls::box_in, geom::specs::Point::point_in))]

mod boxes;
mod growing;

pub use boxes::bounds;
