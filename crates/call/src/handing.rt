// The last tests of a call that makes a path: refusals 9 and 8; then the path is written.
ghost use Rattle.std.specs.Prelude.{◌≡◌, ◌*◌, ◌≤◌, length};
ghost use Rattle.path.specs.Shape.{total};
ghost use Rattle.call.specs.Answers.{handed_answer, handed_shapes, handed_anchors};

use crate::answers::Outline;
use refusal::{Reason, Refusal};

// A path in scratch lists goes to lent ones, unless a number of it breaks the limit or they are too short.
pub fn hand_over(
    words: &[u32],
    made: &[f64],
    to_shapes: &mut [u32],
    to: &mut [f64],
) -> Result<Outline, Refusal>
    requires { (length words.now ≤ 32) × (total words.now ≤ 1024) × (total words.now * 6 ≤ length made.now) }
    ensures answer { result ≡ handed_answer words.now made.now to_shapes.old to.old }
    ensures shapes { to_shapes.new ≡ handed_shapes words.now made.now to_shapes.old to.old }
    ensures anchors { to.new ≡ handed_anchors words.now made.now to_shapes.old to.old }
{
    if let Some(k) = path::first_bad_anchor(words, made) {
        return Err(Reason::Made.at(k));
    }
    let count = path::total_of(words);
    if to_shapes.len() < words.len() {
        return Err(Reason::Output.at(0));
    }
    if to.len() < count * 6 {
        return Err(Reason::Output.at(0));
    }
    views::copy(words, words.len(), to_shapes);
    views::copy(made, count * 6, to);
    Ok(Outline {
        subpaths: words.len(),
        anchors: count,
    })
}
