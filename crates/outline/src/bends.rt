// The exported calls that move the points of a path.
ghost use Rattle.std.specs.Prelude.{◌≡◌, not, eqb};
ghost use Rattle.geom.specs.Point.{point};
ghost use Rattle.bend.specs.Edits.{smooth_answer, smooth_left, bend_answer, bend_left};
ghost use Rattle.transform.specs.Call.{transform_answer, transform_shapes, transform_anchors};
ghost use Rattle.answers.specs.Answers.{code, told, outline_words};

use answers::tell;
use geom::P;

#[unsafe(no_mangle)]
pub extern "C" fn outline_transform(
    shapes: &[u32],
    anchors: &[f64],
    m: &[f64; 6],
    to_shapes: &mut [u32],
    to: &mut [f64],
    answer: &mut [u64; 4],
) -> u32
    ensures code { result ≡ code (transform_answer shapes.now anchors.now m.now to_shapes.old to.old) }
    ensures answer { answer.new ≡ told outline_words (transform_answer shapes.now anchors.now m.now to_shapes.old to.old) }
    ensures shapes { to_shapes.new ≡ transform_shapes shapes.now anchors.now m.now to_shapes.old to.old }
    ensures anchors { to.new ≡ transform_anchors shapes.now anchors.now m.now to_shapes.old to.old }
{
    let a = transform::transform(shapes, anchors, *m, to_shapes, to);
    tell(a, answer)
}

#[unsafe(no_mangle)]
pub extern "C" fn outline_auto_smooth(
    shapes: &[u32],
    anchors: &mut [f64],
    s: usize,
    k: usize,
    answer: &mut [u64; 4],
) -> u32
    ensures code { result ≡ code (smooth_answer shapes.now anchors.old s k) }
    ensures answer { answer.new ≡ told outline_words (smooth_answer shapes.now anchors.old s k) }
    ensures anchors { anchors.new ≡ smooth_left shapes.now anchors.old s k }
{
    let a = bend::auto_smooth(shapes, anchors, s, k);
    tell(a, answer)
}

#[unsafe(no_mangle)]
pub extern "C" fn outline_bend_segment(
    shapes: &[u32],
    anchors: &mut [f64],
    s: usize,
    a: usize,
    t: f64,
    dx: f64,
    dy: f64,
    keep_smooth: u32,
    answer: &mut [u64; 4],
) -> u32
    ensures code { result ≡ code (bend_answer shapes.now anchors.old s a t (point dx dy) (not (eqb keep_smooth 0))) }
    ensures answer { answer.new ≡ told outline_words (bend_answer shapes.now anchors.old s a t (point dx dy) (not (eqb keep_smooth 0))) }
    ensures anchors { anchors.new ≡ bend_left shapes.now anchors.old s a t (point dx dy) (not (eqb keep_smooth 0)) }
{
    let told = bend::bend_segment(
        shapes,
        anchors,
        s,
        a,
        t,
        P { x: dx, y: dy },
        keep_smooth != 0,
    );
    tell(told, answer)
}
