// The call `path_corners`: every corner of a path that can be cut, in order, to lent lists.
#![tactic(auto, unfolding(crate::specs::Corners::put_corner, crate::specs::Corners::corner_numbers))]

mod calls;
mod finding;

pub use calls::path_corners;
