// `join`, with its refusals: 7, 5 (the target's places after the drawn ones'), 6, 10, 9, 8.
// Kept: lists and their counts by themselves, as the C interface lends them, longer than what they hold.
ghost use Rattle.std.specs.Prelude.{◌≡◌, ◌+◌};
ghost use Rattle.path.specs.Shape.{count_of};
ghost use Rattle.path.proofs.Limits.{GoodBelow};
ghost use Rattle.joining.specs.Joined.{HoldsAnchors};
ghost use Rattle.joining.specs.Call.{either_in, join_answer, join_shapes_left, join_anchors_left};

use crate::anchors::{Target, joint_of, put_joined};
use crate::limits::{first_bad_either, list_fits};
use call::Outline;
use refusal::{Reason, Refusal};

// Of two lists that passed 7 and 5.
fn join_opened(
    drawn: &[f64],
    count: usize,
    target: &[f64],
    word: u32,
    at_start: bool,
    to_shapes: &mut [u32],
    to: &mut [f64],
) -> Result<Outline, Refusal>
    requires drawn { HoldsAnchors drawn.now count }
    requires target { HoldsAnchors target.now (count_of word) }
    requires good { GoodBelow (either_in drawn.now count target.now) (count + count_of word) }
    ensures answer { result ≡ join_answer drawn.now count target.now word at_start to_shapes.old to.old }
    ensures shapes { to_shapes.new ≡ join_shapes_left drawn.now count target.now word at_start to_shapes.old to.old }
    ensures anchors { to.new ≡ join_anchors_left drawn.now count target.now word at_start to_shapes.old to.old }
{
    let n = path::count_of(word);
    if n == 0 {
        return Err(Reason::Reference.at(0));
    }
    let before = count.saturating_sub(1);
    if before + n > 512 {
        return Err(Reason::Capacity.at(0));
    }
    let onto = Target {
        anchors: target,
        n,
        at_start,
    };
    let joint = joint_of(drawn, count, onto.anchor(0));
    // The other anchors are those given, which passed 5.
    if !joint.in_limit() {
        return Err(Reason::Made.at(before));
    }
    if to_shapes.is_empty() || to.len() < (before + n) * 6 {
        return Err(Reason::Output.at(0));
    }
    to_shapes[0] = path::word(before + n, false);
    put_joined(drawn, before, joint, onto, to);
    Ok(Outline {
        subpaths: 1,
        anchors: before + n,
    })
}

// One open subpath: the drawn anchors, the last of which lands on an end of the target, and on through the target from there.
// The joint keeps the handle that it arrives with, and the target's handle leaving it.
pub fn join(
    drawn: &[f64],
    drawn_count: usize,
    target: &[f64],
    target_word: u32,
    at_start: bool,
    to_shapes: &mut [u32],
    to: &mut [f64],
) -> Result<Outline, Refusal>
    ensures answer { result ≡ join_answer drawn.now drawn_count target.now target_word at_start to_shapes.old to.old }
    ensures shapes { to_shapes.new ≡ join_shapes_left drawn.now drawn_count target.now target_word at_start to_shapes.old to.old }
    ensures anchors { to.new ≡ join_anchors_left drawn.now drawn_count target.now target_word at_start to_shapes.old to.old }
{
    let n = path::count_of(target_word);
    if !list_fits(drawn_count, drawn) || !list_fits(n, target) {
        return Err(Reason::Lists.at(0));
    }
    if let Some(k) = first_bad_either(drawn, drawn_count, target, n) {
        return Err(Reason::Arguments.at(k));
    }
    join_opened(
        drawn,
        drawn_count,
        target,
        target_word,
        at_start,
        to_shapes,
        to,
    )
}
