// `bounds`: the box around points of a path, 17 of each curve.
ghost use Rattle.std.specs.Prelude.{◌≡◌, ◌+◌, ◌*◌, ◌≤◌, length};
ghost use Rattle.path.specs.Shape.{total};
ghost use Rattle.bounds.specs.Points.{grown_by, curve_points, subpath_points, box_of};
ghost use Rattle.bounds.specs.Calls.{box_in, bounds_answer};

use crate::growing::add;
use geom::{Bounds, P};
use refusal::{Reason, Refusal};

// The box with the points of a curve.
fn add_curve(mut b: Bounds, c: [P; 4]) -> Bounds
    ensures { result ≡ grown_by b (curve_points 16 c) }
{
    let m = cubic::steps(c, 16);
    // Kept: a loop up to m + 1, since a fold hands the box on by value, where `add` takes it lent, and `0..=m` leaves by a second way.
    for k in 0..m + 1 {
        add(&mut b, cubic::step_at(c, m, k));
    }
    b
}

// The box with the segments of a subpath of n anchors, the first of which is at place k, and with that anchor.
// Kept: k and n beside the list, since a segment's ends are read by their places in it.
fn add_subpath(mut b: Bounds, anchors: &[f64], k: usize, n: usize, closed: bool) -> Bounds
    requires { (k + n ≤ 1024) × ((k + n) * 6 ≤ length anchors.now) }
    ensures { result ≡ grown_by b (subpath_points anchors.now k n closed) }
{
    for a in 0..n {
        if path::has_segment(n, closed, a) {
            b = add_curve(b, path::curve_at(anchors, k, n, a));
        }
    }
    if n > 0 {
        add(&mut b, path::anchor_at(anchors, k).p);
    }
    b
}

// The box of a path.
fn box_of(shapes: &[u32], anchors: &[f64]) -> Bounds
    requires { (total shapes.now ≤ 1024) × (total shapes.now * 6 ≤ length anchors.now) }
    ensures { result ≡ box_of shapes.now anchors.now }
{
    let mut b = Bounds::empty();
    let mut k = 0;
    for word in shapes {
        let n = path::count_of(*word);
        b = add_subpath(b, anchors, k, n, path::closed_of(*word));
        k += n;
    }
    b
}

// Whether the numbers of a box are within the limit.
fn box_in(b: Bounds) -> bool
    ensures { result ≡ box_in b }
{
    b.min.in_limit() && b.max.in_limit()
}

// The box of a path of at most 1,024 anchors; a path without anchors has none.
pub fn bounds(shapes: &[u32], anchors: &[f64]) -> Result<Option<Bounds>, Refusal>
    ensures { result ≡ bounds_answer shapes.now anchors.now }
{
    let n = call::open_path(1024, shapes, anchors)?;
    if n == 0 {
        return Ok(None);
    }
    let b = box_of(shapes, anchors);
    if box_in(b) {
        Ok(Some(b))
    } else {
        Err(Reason::Made.at(0))
    }
}
