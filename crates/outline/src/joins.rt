// The exported join of two paths.
ghost use Rattle.std.specs.Prelude.{◌≡◌, not, eqb};
ghost use Rattle.joining.specs.Call.{join_answer, join_shapes_left, join_anchors_left};
ghost use Rattle.answers.specs.Answers.{code, told, outline_words};

use answers::tell;

#[unsafe(no_mangle)]
pub extern "C" fn outline_join(
    drawn: &[f64],
    drawn_count: usize,
    target: &[f64],
    target_word: u32,
    at_start: u32,
    to_shapes: &mut [u32],
    to: &mut [f64],
    answer: &mut [u64; 4],
) -> u32
    ensures code { result ≡ code (join_answer drawn.now drawn_count target.now target_word (not (eqb at_start 0)) to_shapes.old to.old) }
    ensures answer { answer.new ≡ told outline_words (join_answer drawn.now drawn_count target.now target_word (not (eqb at_start 0)) to_shapes.old to.old) }
    ensures shapes { to_shapes.new ≡ join_shapes_left drawn.now drawn_count target.now target_word (not (eqb at_start 0)) to_shapes.old to.old }
    ensures anchors { to.new ≡ join_anchors_left drawn.now drawn_count target.now target_word (not (eqb at_start 0)) to_shapes.old to.old }
{
    let told = joining::join(
        drawn,
        drawn_count,
        target,
        target_word,
        at_start != 0,
        to_shapes,
        to,
    );
    tell(told, answer)
}
