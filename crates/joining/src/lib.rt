// A path being drawn joined onto an end of another, after 000's `join`.
#![tactic(auto, unfolding(crate::specs::Joined::target_at, crate::specs::Joined::landed, crate::specs::Joined::joint_of, crate::specs::Call::list_fits))]

mod anchors;
mod calls;
mod limits;

pub use calls::join;
