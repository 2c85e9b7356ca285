// The exported calls on paths.
ghost use Rattle.std.specs.Prelude.{◌≡◌};
ghost use Rattle.cut_corners.specs.Calls.{cut_answer, cut_shapes_left, cut_anchors_left};
ghost use Rattle.svg_calls.specs.Call.{to_svg_d_answer, to_svg_d_left, write_num_answer, write_num_left};
ghost use Rattle.answers.specs.Answers.{code, told, outline_words, count_words};

use answers::tell;

#[unsafe(no_mangle)]
pub extern "C" fn outline_cut_corners(
    shapes: &[u32],
    anchors: &[f64],
    radii: &[f64],
    kind: u32,
    to_shapes: &mut [u32],
    to: &mut [f64],
    answer: &mut [u64; 4],
) -> u32
    ensures code { result ≡ code (cut_answer shapes.now anchors.now radii.now kind to_shapes.old to.old) }
    ensures answer { answer.new ≡ told outline_words (cut_answer shapes.now anchors.now radii.now kind to_shapes.old to.old) }
    ensures shapes { to_shapes.new ≡ cut_shapes_left shapes.now anchors.now radii.now kind to_shapes.old to.old }
    ensures anchors { to.new ≡ cut_anchors_left shapes.now anchors.now radii.now kind to_shapes.old to.old }
{
    let a = cut_corners::cut_corners(shapes, anchors, radii, kind, to_shapes, to);
    tell(a, answer)
}

#[unsafe(no_mangle)]
pub extern "C" fn outline_to_svg_d(
    shapes: &[u32],
    anchors: &[f64],
    out: &mut [u8],
    answer: &mut [u64; 4],
) -> u32
    ensures code { result ≡ code (to_svg_d_answer shapes.now anchors.now out.old) }
    ensures answer { answer.new ≡ told count_words (to_svg_d_answer shapes.now anchors.now out.old) }
    ensures out { out.new ≡ to_svg_d_left shapes.now anchors.now out.old }
{
    let a = svg_calls::to_svg_d(shapes, anchors, out);
    tell(a, answer)
}

#[unsafe(no_mangle)]
pub extern "C" fn outline_write_num(x: f64, out: &mut [u8], answer: &mut [u64; 4]) -> u32
    ensures code { result ≡ code (write_num_answer x out.old) }
    ensures answer { answer.new ≡ told count_words (write_num_answer x out.old) }
    ensures out { out.new ≡ write_num_left x out.old }
{
    let a = svg_calls::write_num(x, out);
    tell(a, answer)
}
