// The exported calls that make a shape between two points.
ghost use Rattle.std.specs.Prelude.{◌≡◌, true, false, ◌&&◌};
ghost use Rattle.real.specs.Limit.{in_limit};
ghost use Rattle.geom.specs.Point.{point};
ghost use Rattle.shape.specs.Outlines.{rect_anchors, ellipse_anchors, line_anchors};
ghost use Rattle.shape.specs.Calls.{pair_in, shape_answer, shape_word, shape_numbers};
ghost use Rattle.answers.specs.Answers.{code, told, outline_words};

use answers::tell;
use geom::P;

#[unsafe(no_mangle)]
pub extern "C" fn outline_rect(
    ax: f64,
    ay: f64,
    bx: f64,
    by: f64,
    radius: f64,
    to_shapes: &mut [u32],
    to: &mut [f64],
    answer: &mut [u64; 4],
) -> u32
    ensures code { result ≡ code (shape_answer (pair_in (point ax ay) (point bx by) && in_limit radius) (rect_anchors (point ax ay) (point bx by) radius) to_shapes.old to.old) }
    ensures answer { answer.new ≡ told outline_words (shape_answer (pair_in (point ax ay) (point bx by) && in_limit radius) (rect_anchors (point ax ay) (point bx by) radius) to_shapes.old to.old) }
    ensures shapes { to_shapes.new ≡ shape_word (pair_in (point ax ay) (point bx by) && in_limit radius) (rect_anchors (point ax ay) (point bx by) radius) true to_shapes.old to.old }
    ensures anchors { to.new ≡ shape_numbers (pair_in (point ax ay) (point bx by) && in_limit radius) (rect_anchors (point ax ay) (point bx by) radius) to_shapes.old to.old }
{
    let a = shape::rect(
        P { x: ax, y: ay },
        P { x: bx, y: by },
        radius,
        to_shapes,
        to,
    );
    tell(a, answer)
}

#[unsafe(no_mangle)]
pub extern "C" fn outline_ellipse(
    ax: f64,
    ay: f64,
    bx: f64,
    by: f64,
    to_shapes: &mut [u32],
    to: &mut [f64],
    answer: &mut [u64; 4],
) -> u32
    ensures code { result ≡ code (shape_answer (pair_in (point ax ay) (point bx by)) (ellipse_anchors (point ax ay) (point bx by)) to_shapes.old to.old) }
    ensures answer { answer.new ≡ told outline_words (shape_answer (pair_in (point ax ay) (point bx by)) (ellipse_anchors (point ax ay) (point bx by)) to_shapes.old to.old) }
    ensures shapes { to_shapes.new ≡ shape_word (pair_in (point ax ay) (point bx by)) (ellipse_anchors (point ax ay) (point bx by)) true to_shapes.old to.old }
    ensures anchors { to.new ≡ shape_numbers (pair_in (point ax ay) (point bx by)) (ellipse_anchors (point ax ay) (point bx by)) to_shapes.old to.old }
{
    let a = shape::ellipse(P { x: ax, y: ay }, P { x: bx, y: by }, to_shapes, to);
    tell(a, answer)
}

#[unsafe(no_mangle)]
pub extern "C" fn outline_line(
    ax: f64,
    ay: f64,
    bx: f64,
    by: f64,
    to_shapes: &mut [u32],
    to: &mut [f64],
    answer: &mut [u64; 4],
) -> u32
    ensures code { result ≡ code (shape_answer (pair_in (point ax ay) (point bx by)) (line_anchors (point ax ay) (point bx by)) to_shapes.old to.old) }
    ensures answer { answer.new ≡ told outline_words (shape_answer (pair_in (point ax ay) (point bx by)) (line_anchors (point ax ay) (point bx by)) to_shapes.old to.old) }
    ensures shapes { to_shapes.new ≡ shape_word (pair_in (point ax ay) (point bx by)) (line_anchors (point ax ay) (point bx by)) false to_shapes.old to.old }
    ensures anchors { to.new ≡ shape_numbers (pair_in (point ax ay) (point bx by)) (line_anchors (point ax ay) (point bx by)) to_shapes.old to.old }
{
    let a = shape::line(P { x: ax, y: ay }, P { x: bx, y: by }, to_shapes, to);
    tell(a, answer)
}
