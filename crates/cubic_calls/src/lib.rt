// The calls of document 01 on points and cubics: each tests what it is given and what it gives, and refuses by reason and place.
#![tactic(auto, using(crate::proofs::FourPoints::before_by_rule, crate::proofs::FourPoints::after_by_rule, crate::proofs::Sampled::few_points), unfolding(crate::specs::Calls::len_answer, crate::specs::Calls::cubic_at_answer, crate::specs::Calls::sample_verdict, crate::specs::Calls::sample_answer, crate::specs::Calls::sample_left, crate::specs::Calls::split_verdict, crate::specs::Calls::split_answer, crate::specs::Calls::split_before, crate::specs::Calls::split_after, crate::specs::Calls::part_verdict, crate::specs::Calls::part_answer, crate::specs::Calls::part_left, crate::specs::Calls::judged, crate::specs::Calls::left, crate::specs::Calls::fits, refusal::specs::Order::verdict, refusal::specs::Order::first_failing, refusal::specs::Order::judge, refusal::specs::Order::holds, refusal::specs::Order::tests, refusal::specs::Order::answering))]

mod curves;
mod limits;

pub use curves::{cubic_at, len, sample, split_cubic, subsegment};
