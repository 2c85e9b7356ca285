// The third pass of the cut: what it leaves at each index within reach.
#![tactic(auto, unfolding(cut::specs::Places::place_of, cut::specs::View::arrives, cut::specs::View::leaves, cut::specs::Places::in_at, cut::specs::Places::out_at, cut::specs::Subpath::view_of))]

mod places;

pub use places::lay_places;
