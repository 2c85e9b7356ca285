// The cached edit that splits a segment, on a lent drawing and its lent cut cache, in place.
#![tactic(auto, unfolding(session::specs::Model::long_for))]

mod making;
mod planning;
mod splits;
mod writing;

pub use splits::split_segment;
