// Edits of a path's handles in place, after 000: a segment bent, an anchor made smooth.
#![tactic(auto, unfolding(crate::specs::Smoothed::point_before, crate::specs::Smoothed::point_after, crate::specs::Smoothed::direction, crate::specs::Smoothed::third, crate::specs::Smoothed::handled, crate::specs::Smoothed::smoothed, crate::specs::Bent::pull, crate::specs::Bent::across, crate::specs::Bent::turned, crate::specs::Bent::bent_out, crate::specs::Bent::bent_in, crate::specs::Edits::has_bend, crate::specs::Edits::first_out, path::specs::Shape::prev, path::specs::Shape::next))]

mod bending;
mod calls;
mod limits;
mod neighbours;
mod places;
mod smoothing;

pub use calls::{auto_smooth, bend_segment};
