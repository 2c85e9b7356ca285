// A path under an affine map, after 000's `transform`.
#![tactic(auto, unfolding(crate::specs::Mapped::mapped, crate::specs::Mapped::mapped_at))]

mod calls;
mod mapping;
mod reach;

pub use calls::transform;
