// Shapes to start a drawing from, after 000: rectangle, ellipse and line. Each is a path of one subpath.
#![tactic(auto, using(crate::proofs::Handed::refused_answer, crate::proofs::Handed::refused_word, crate::proofs::Handed::refused_numbers), unfolding(crate::specs::Calls::pair_in, crate::specs::Outlines::least, crate::specs::Outlines::greatest, crate::specs::Outlines::fitted_radius, crate::specs::Outlines::sharp, crate::specs::Outlines::beside, crate::specs::Outlines::upper_right, crate::specs::Outlines::lower_left, crate::specs::Outlines::rounded, crate::specs::Outlines::rect_between, crate::specs::Outlines::rect_anchors, crate::specs::Outlines::centre, crate::specs::Outlines::semi_axis, crate::specs::Outlines::through, crate::specs::Outlines::ellipse_around, crate::specs::Outlines::ellipse_anchors, crate::specs::Outlines::line_anchors))]

mod calls;
mod outlines;

pub use calls::{ellipse, line, rect};
