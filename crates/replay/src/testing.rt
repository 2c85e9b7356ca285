// The tests of the calls' own lists.
// Kept: codes, values and answers by themselves, as the C interface lends them.
ghost use Rattle.std.specs.Prelude.{◌≡◌};
ghost use Rattle.replay.specs.Encoding.{calls_fit, calls_known};

use crate::kind::CallKind;

// Whole calls, six numbers and room for five words each. No product wraps, since no list takes 2^63 bytes.
#[tactic(auto, unfolding(crate::specs::Encoding::calls_fit))]
pub fn calls_fit(codes: &[u32], values: &[f64], answers: &[u32]) -> bool
    ensures { result ≡ calls_fit codes.now values.now answers.now }
{
    let m = codes.len() / 3;
    codes.len() % 3 == 0 && m * 6 <= values.len() && m * 5 <= answers.len()
}

// Whether each call is a move, a radius or a split.
pub fn calls_known(codes: &[u32]) -> bool
    ensures { result ≡ calls_known codes.now }
{
    codes
        .chunks_exact(3)
        .all(|call| CallKind::try_from(call[0]).is_ok())
}
