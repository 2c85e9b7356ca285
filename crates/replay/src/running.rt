// The calls, one and all.
// Kept: a list by itself, as the C interface lends it; kind by its number, as the cached calls take it and refuse an unknown one.
ghost use Rattle.std.specs.Prelude.{◌≡◌, ◌+◌, ◌*◌, ◌≤◌, length};
ghost use Rattle.std.proofs.lemmas.List.Edits.{sets};
ghost use Rattle.views.specs.View.{overwrite};
ghost use Rattle.cached.specs.Opening.{lent};
ghost use Rattle.cached.specs.Doing.{Does};
ghost use Rattle.session.specs.Calls.{call_lists};
ghost use Rattle.replay.specs.Kinds.{call_as};
ghost use Rattle.replay.specs.Encoding.{call_at, call_count};
ghost use Rattle.replay.specs.Replay.{stage, call_words, answer_word};

use crate::kind::CallKind;
use crate::telling::put_answer;
use path::{Anchor, AnchorRef};
use refusal::Refusal;
use session::Edited;

// One call of a kind.
#[tactic(auto, unfolding(crate::specs::Kinds::call_as))]
fn run_one(
    shapes: &mut [u32],
    anchors: &mut [f64],
    radii: &mut [f64],
    kind: u32,
    numbers: &mut [f64],
    flags: &mut [u32],
    which: CallKind,
    at: AnchorRef,
    given: Anchor,
) -> Result<Edited, Refusal>
    ensures { Does (lent shapes.old anchors.old radii.old numbers.old flags.old) kind (call_as which at.subpath at.anchor given) result (lent shapes.new anchors.new radii.new numbers.new flags.new) }
{
    let x = given.p.x;
    match which {
        CallKind::Move => {
            cached::move_anchor(shapes, anchors, radii, kind, numbers, flags, at, given)
        }
        CallKind::Radius => {
            cached::set_radius(shapes, anchors, radii, kind, numbers, flags, at, x)
        }
        CallKind::Split => {
            cached_split::split_segment(shapes, anchors, radii, kind, numbers, flags, at, x)
        }
    }
}

// Call j of a list, and its answer.
fn run_call(
    shapes: &mut [u32],
    anchors: &mut [f64],
    radii: &mut [f64],
    kind: u32,
    numbers: &mut [f64],
    flags: &mut [u32],
    codes: &[u32],
    values: &[f64],
    answers: &mut [u32],
    j: usize,
)
    requires { (j * 3 + 3 ≤ length codes.now) × (j * 6 + 6 ≤ length values.now) × (j * 5 + 5 ≤ length answers.old) }
    ensures lists { lent shapes.new anchors.new radii.new numbers.new flags.new ≡ call_lists (lent shapes.old anchors.old radii.old numbers.old flags.old) kind (call_at codes.now values.now j) }
    ensures answers { answers.new ≡ sets answers.old (j * 5) (call_words kind (lent shapes.old anchors.old radii.old numbers.old flags.old) (call_at codes.now values.now j)) }
{
    // What is above 2 runs as a split: `replay` refuses it before.
    let which = CallKind::try_from(codes[j * 3]).unwrap_or(CallKind::Split);
    let at = AnchorRef {
        subpath: codes[j * 3 + 1] as usize,
        anchor: codes[j * 3 + 2] as usize,
    };
    let given = path::anchor_at(values, j);
    let edited = run_one(
        shapes, anchors, radii, kind, numbers, flags, which, at, given,
    );
    put_answer(answers, j, edited, shapes, at.subpath);
}

// Each call on the lists as the last one left them.
pub fn run_calls(
    shapes: &mut [u32],
    anchors: &mut [f64],
    radii: &mut [f64],
    kind: u32,
    numbers: &mut [f64],
    flags: &mut [u32],
    codes: &[u32],
    values: &[f64],
    answers: &mut [u32],
)
    requires { (call_count codes.now * 6 ≤ length values.now) × (call_count codes.now * 5 ≤ length answers.old) }
    ensures lists { lent shapes.new anchors.new radii.new numbers.new flags.new ≡ stage kind (lent shapes.old anchors.old radii.old numbers.old flags.old) (call_at codes.now values.now) (call_count codes.now) }
    ensures answers { answers.new ≡ overwrite (call_count codes.now * 5) (answer_word kind (lent shapes.old anchors.old radii.old numbers.old flags.old) (call_at codes.now values.now)) answers.old }
{
    let m = codes.len() / 3;
    // Kept: by index, since each call writes to the lists of the last, and a proof learns only the length of what chunks_exact_mut leaves.
    for j in 0..m {
        run_call(
            shapes, anchors, radii, kind, numbers, flags, codes, values, answers, j,
        );
    }
}
