// `rect`, `ellipse` and `line`, with their refusals: 5 and 8 at place 0, 9 at the place in the shape.
ghost use Rattle.std.specs.Prelude.{◌≡◌, true, false, ◌&&◌, ◌≤◌, length};
ghost use Rattle.real.specs.Limit.{in_limit};
ghost use Rattle.shape.specs.Outlines.{rect_anchors, ellipse_anchors, line_anchors};
ghost use Rattle.shape.specs.Calls.{pair_in, shape_answer, shape_word, shape_numbers};

use crate::outlines::{ellipse_between, fitted_radius, line_between, rounded, sharp};
use call::Outline;
use geom::P;
use path::Anchor;
use refusal::{Reason, Refusal};

fn pair_in_limit(a: P, b: P) -> bool
    ensures { result ≡ pair_in a b }
{
    a.in_limit() && b.in_limit()
}

// One subpath of these anchors goes to the lent lists, unless a number of it breaks the limit or they are too short.
fn hand_over(
    anchors: &[Anchor],
    closed: bool,
    to_shapes: &mut [u32],
    to: &mut [f64],
) -> Result<Outline, Refusal>
    requires { length anchors.now ≤ 8 }
    ensures answer { result ≡ shape_answer true anchors.now to_shapes.old to.old }
    ensures shapes { to_shapes.new ≡ shape_word true anchors.now closed to_shapes.old to.old }
    ensures anchors { to.new ≡ shape_numbers true anchors.now to_shapes.old to.old }
{
    if let Some(k) = anchors.iter().position(|a| !a.in_limit()) {
        return Err(Reason::Made.at(k));
    }
    if to_shapes.is_empty() || to.len() < anchors.len() * 6 {
        return Err(Reason::Output.at(0));
    }
    to_shapes[0] = path::word(anchors.len(), closed);
    for (k, a) in anchors.iter().enumerate() {
        path::put_anchor(to, k, *a);
    }
    Ok(Outline {
        subpaths: 1,
        anchors: anchors.len(),
    })
}

// The rectangle of which a and b are opposite corners, its corners rounded by the radius as far as that fits.
pub fn rect(
    a: P,
    b: P,
    radius: f64,
    to_shapes: &mut [u32],
    to: &mut [f64],
) -> Result<Outline, Refusal>
    ensures answer { result ≡ shape_answer (pair_in a b && in_limit radius) (rect_anchors a b radius) to_shapes.old to.old }
    ensures shapes { to_shapes.new ≡ shape_word (pair_in a b && in_limit radius) (rect_anchors a b radius) true to_shapes.old to.old }
    ensures anchors { to.new ≡ shape_numbers (pair_in a b && in_limit radius) (rect_anchors a b radius) to_shapes.old to.old }
{
    if !pair_in_limit(a, b) || !real::in_limit(radius) {
        return Err(Reason::Arguments.at(0));
    }
    let lo = P::new(real::min(a.x, b.x), real::min(a.y, b.y));
    let hi = P::new(real::max(a.x, b.x), real::max(a.y, b.y));
    let fitted = fitted_radius(lo, hi, radius);
    if fitted < 1e-9 {
        hand_over(&sharp(lo, hi), true, to_shapes, to)
    } else {
        hand_over(&rounded(lo, hi, fitted), true, to_shapes, to)
    }
}

// The ellipse that fills the box between a and b.
pub fn ellipse(a: P, b: P, to_shapes: &mut [u32], to: &mut [f64]) -> Result<Outline, Refusal>
    ensures answer { result ≡ shape_answer (pair_in a b) (ellipse_anchors a b) to_shapes.old to.old }
    ensures shapes { to_shapes.new ≡ shape_word (pair_in a b) (ellipse_anchors a b) true to_shapes.old to.old }
    ensures anchors { to.new ≡ shape_numbers (pair_in a b) (ellipse_anchors a b) to_shapes.old to.old }
{
    if !pair_in_limit(a, b) {
        return Err(Reason::Arguments.at(0));
    }
    hand_over(&ellipse_between(a, b), true, to_shapes, to)
}

// The straight line from a to b.
pub fn line(a: P, b: P, to_shapes: &mut [u32], to: &mut [f64]) -> Result<Outline, Refusal>
    ensures answer { result ≡ shape_answer (pair_in a b) (line_anchors a b) to_shapes.old to.old }
    ensures shapes { to_shapes.new ≡ shape_word (pair_in a b) (line_anchors a b) false to_shapes.old to.old }
    ensures anchors { to.new ≡ shape_numbers (pair_in a b) (line_anchors a b) to_shapes.old to.old }
{
    if !pair_in_limit(a, b) {
        return Err(Reason::Arguments.at(0));
    }
    hand_over(&line_between(a, b), false, to_shapes, to)
}
