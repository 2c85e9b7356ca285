// `replay`: 7, 5, 9, then every call.
// Kept: numbers and flags, anchors and radii, codes and values by themselves, as the C interface lends them.
ghost use Rattle.std.specs.Prelude.{◌≡◌, ℕ, Ok};
ghost use Rattle.cached.specs.Opening.{lent};
ghost use Rattle.refusal.specs.Order.{refused};
ghost use Rattle.replay.specs.Encoding.{calls_of};
ghost use Rattle.replay.specs.Replay.{unknown_verdict, replay_answer, replay_lists, replay_answers};
ghost use Rattle.replay.specs.Claim.{Claim};

use crate::running::run_calls;
use crate::testing::{calls_fit, calls_known};
use refusal::{Reason, Refusal};

// Builds the cache of the drawing, runs the calls and says how many there were. One that is refused is answered so, and the next is run.
pub fn replay(
    shapes: &mut [u32],
    anchors: &mut [f64],
    radii: &mut [f64],
    kind: u32,
    numbers: &mut [f64],
    flags: &mut [u32],
    codes: &[u32],
    values: &[f64],
    answers: &mut [u32],
) -> Result<usize, Refusal>
    ensures answer { result ≡ replay_answer (lent shapes.old anchors.old radii.old numbers.old flags.old) kind codes.now values.now answers.old }
    ensures lists { lent shapes.new anchors.new radii.new numbers.new flags.new ≡ replay_lists (lent shapes.old anchors.old radii.old numbers.old flags.old) kind codes.now values.now answers.old }
    ensures answers { answers.new ≡ replay_answers (lent shapes.old anchors.old radii.old numbers.old flags.old) kind codes.now values.now answers.old }
    ensures demand { (m : ℕ) → result ≡ Ok m → Claim (lent shapes.old anchors.old radii.old numbers.old flags.old) kind (calls_of codes.now values.now) (lent shapes.new anchors.new radii.new numbers.new flags.new) answers.new }
{
    if !calls_fit(codes, values, answers) {
        return Err(Reason::Lists.at(0));
    }
    if !calls_known(codes) {
        return Err(refuse_unknown(shapes, anchors, radii, numbers, flags));
    }
    cache::build(shapes, anchors, radii, kind, numbers, flags)?;
    run_calls(
        shapes, anchors, radii, kind, numbers, flags, codes, values, answers,
    );
    Ok(codes.len() / 3)
}

// A call that is none of the three: the lists' lengths and the drawing's places are refused first.
fn refuse_unknown(
    shapes: &[u32],
    anchors: &[f64],
    radii: &[f64],
    numbers: &[f64],
    flags: &[u32],
) -> Refusal
    ensures { refused result ≡ unknown_verdict (lent shapes.now anchors.now radii.now numbers.now flags.now) }
{
    match cached::open_cached(shapes, anchors, radii, numbers, flags) {
        Ok(n) => Reason::Arguments.at(n),
        Err(why) => why,
    }
}
