// The cached edits of one anchor: an anchor moved, a radius set, on a lent drawing and its lent cut cache, in place; and the first tests of every cached edit.
#![tactic(auto, unfolding(crate::specs::Planning::numbers_in, crate::specs::Planning::reach_of, crate::specs::Planning::anchor_then, crate::specs::Planning::radius_then, cut_calls::specs::PlainCut::sub_at, edit::specs::Split::has_segment))]

mod anchors;
mod opening;
mod planning;
mod radius;

pub use anchors::move_anchor;
pub use opening::{Ready, has_segment, open_cached, open_edit, sub_at};
pub use radius::set_radius;
