// The exported hits and bounds.
ghost use Rattle.std.specs.Prelude.{◌≡◌};
ghost use Rattle.geom.specs.Point.{point};
ghost use Rattle.hit.specs.Calls.{hit_anchor_answer, hit_segment_answer};
ghost use Rattle.bounds.specs.Calls.{bounds_answer};
ghost use Rattle.answers.specs.Answers.{code, told, left, hit_anchor_words, hit_segment_words, parameter_put, bounds_words, corners_put};

use answers::tell;
use geom::P;

#[unsafe(no_mangle)]
pub extern "C" fn outline_hit_anchor(
    shapes: &[u32],
    anchors: &[f64],
    x: f64,
    y: f64,
    tol: f64,
    answer: &mut [u64; 4],
) -> u32
    ensures code { result ≡ code (hit_anchor_answer shapes.now anchors.now (point x y) tol) }
    ensures answer { answer.new ≡ told hit_anchor_words (hit_anchor_answer shapes.now anchors.now (point x y) tol) }
{
    let a = hit::hit_anchor(shapes, anchors, P::new(x, y), tol);
    tell(a, answer)
}

#[unsafe(no_mangle)]
pub extern "C" fn outline_hit_segment(
    shapes: &[u32],
    anchors: &[f64],
    x: f64,
    y: f64,
    tol: f64,
    t: &mut f64,
    answer: &mut [u64; 4],
) -> u32
    ensures code { result ≡ code (hit_segment_answer shapes.now anchors.now (point x y) tol) }
    ensures t { t.new ≡ left parameter_put (hit_segment_answer shapes.now anchors.now (point x y) tol) t.old }
    ensures answer { answer.new ≡ told hit_segment_words (hit_segment_answer shapes.now anchors.now (point x y) tol) }
{
    let a = hit::hit_segment(shapes, anchors, P::new(x, y), tol);
    if let Ok(found) = a {
        if let Some(at) = found {
            *t = at.t;
        }
    }
    tell(a, answer)
}

#[unsafe(no_mangle)]
pub extern "C" fn outline_bounds(
    shapes: &[u32],
    anchors: &[f64],
    corners: &mut [f64; 4],
    answer: &mut [u64; 4],
) -> u32
    ensures code { result ≡ code (bounds_answer shapes.now anchors.now) }
    ensures corners { corners.new ≡ left corners_put (bounds_answer shapes.now anchors.now) corners.old }
    ensures answer { answer.new ≡ told bounds_words (bounds_answer shapes.now anchors.now) }
{
    let a = bounds::bounds(shapes, anchors);
    if let Ok(found) = a {
        if let Some(b) = found {
            *corners = [b.min.x, b.min.y, b.max.x, b.max.y];
        }
    }
    tell(a, answer)
}
