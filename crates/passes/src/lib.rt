// The corner cut of a subpath, after 000's `cut_corners`, in three passes over the indices within reach of one: corners, cuts, places.
// With a reach that covers the subpath it is the whole cut; each corner's lengths are computed once.
#![tactic(auto, unfolding(cut::specs::Rows::row_of, cut::specs::Rows::asked_in, cut::specs::Rows::fitted_of))]

mod corners;
mod cuts;
mod passes;

pub use passes::recut;
