// The exported edits of a path.
ghost use Rattle.std.specs.Prelude.{◌≡◌};
ghost use Rattle.edit.specs.Split.{split_answer, split_shapes_left, split_anchors_left};
ghost use Rattle.edit.specs.Reversed.{reversed_answer, reversed_left};
ghost use Rattle.removal.specs.Deleted.{delete_answer, delete_shapes_left, delete_anchors_left};
ghost use Rattle.answers.specs.Answers.{code, told, outline_words};

use answers::tell;

#[unsafe(no_mangle)]
pub extern "C" fn outline_split(
    shapes: &mut [u32],
    anchors: &mut [f64],
    s: usize,
    a: usize,
    t: f64,
    answer: &mut [u64; 4],
) -> u32
    ensures code { result ≡ code (split_answer shapes.old anchors.old s a t) }
    ensures answer { answer.new ≡ told outline_words (split_answer shapes.old anchors.old s a t) }
    ensures shapes { shapes.new ≡ split_shapes_left shapes.old anchors.old s a t }
    ensures anchors { anchors.new ≡ split_anchors_left shapes.old anchors.old s a t }
{
    let told = edit::split(shapes, anchors, s, a, t);
    tell(told, answer)
}

#[unsafe(no_mangle)]
pub extern "C" fn outline_reversed(
    shapes: &[u32],
    anchors: &mut [f64],
    radii: &[f64],
    s: usize,
    answer: &mut [u64; 4],
) -> u32
    ensures code { result ≡ code (reversed_answer shapes.now anchors.old radii.now s) }
    ensures answer { answer.new ≡ told outline_words (reversed_answer shapes.now anchors.old radii.now s) }
    ensures anchors { anchors.new ≡ reversed_left shapes.now anchors.old radii.now s }
{
    let told = edit::reversed(shapes, anchors, radii, s);
    tell(told, answer)
}

#[unsafe(no_mangle)]
pub extern "C" fn outline_delete(
    shapes: &mut [u32],
    anchors: &mut [f64],
    which: &[u32],
    answer: &mut [u64; 4],
) -> u32
    ensures code { result ≡ code (delete_answer shapes.old anchors.old which.now) }
    ensures answer { answer.new ≡ told outline_words (delete_answer shapes.old anchors.old which.now) }
    ensures shapes { shapes.new ≡ delete_shapes_left shapes.old anchors.old which.now }
    ensures anchors { anchors.new ≡ delete_anchors_left shapes.old anchors.old which.now }
{
    let told = removal::delete(shapes, anchors, which);
    tell(told, answer)
}
