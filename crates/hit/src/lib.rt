// What lies near a point, after 000's `hit_anchor` and `hit_segment`.
#![tactic(auto, unfolding(crate::specs::Best::beats, crate::specs::Best::counts, crate::specs::Best::taken, crate::specs::Located::located, crate::specs::Steps::along, crate::specs::Steps::offset, crate::specs::Steps::step_offset, crate::specs::Steps::step_parameter, crate::specs::Calls::query_in, geom::specs::Point::point_in))]

mod anchors;
mod best;
mod chords;
mod located;
mod opening;
mod segments;

pub use anchors::hit_anchor;
pub use segments::{SegmentAt, hit_segment};
