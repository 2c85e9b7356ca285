// `delete`, after 000: anchors that references name go, and every subpath that has too few left.
#![tactic(auto, unfolding(crate::specs::Deleted::suffices))]

mod deletion;
mod marking;
mod moving;

pub use deletion::delete;
