// How the C interface hands over what a call answers (include/outline.h).
#![tactic(auto, unfolding(crate::specs::Answers::number_words, crate::specs::Answers::point_words, crate::specs::Answers::count_words, crate::specs::Answers::outline_words, crate::specs::Answers::edited_words, crate::specs::Answers::hit_anchor_words, crate::specs::Answers::hit_segment_words, crate::specs::Answers::bounds_words, crate::specs::Answers::job_words, crate::specs::Answers::code, crate::specs::Answers::told))]

mod telling;
mod words;

pub use telling::{Told, tell};
