// Paths: anchors with handles, after 000, and document 01's flat form of a path, shape words and six numbers an anchor.
#![tactic(auto, unfolding(crate::specs::Shape::has_anchor, crate::specs::Shape::word_of, crate::specs::Shape::is_segment, crate::specs::Shape::prev, crate::specs::Shape::next, crate::specs::Shape::sized_of, crate::specs::Limit::within_limit, crate::specs::Limit::place_in, crate::specs::Anchor::has_handles, crate::specs::Anchor::is_smooth, crate::specs::Flat::curve_of, geom::specs::Point::same))]

mod anchor;
mod distance;
mod flat;
mod limit;
mod shape;

pub use anchor::Anchor;
pub use distance::{beyond, short, within};
pub use flat::{anchor_at, curve_at, put_anchor};
pub use limit::{all_within, first_bad_anchor, first_bad_place};
pub use shape::{
    AnchorRef, closed_of, count_of, has_anchor, has_segment, next, prev, size_test, start_of,
    total_of, word,
};
