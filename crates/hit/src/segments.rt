// `hit_segment`: the point of a path nearest another, within a tolerance, by 48 chords to a segment.
ghost use Rattle.std.specs.Prelude.{◌≡◌, true, ◌+◌, ◌*◌, ◌≤◌, ◌<◌, length};
ghost use Rattle.real.specs.Limit.{in_limit};
ghost use Rattle.path.specs.Shape.{total};
ghost use Rattle.hit.specs.Best.{Barred};
ghost use Rattle.hit.specs.Steps.{step_offset, nearest_chord};
ghost use Rattle.hit.specs.Tried.{tried, tried_from};
ghost use Rattle.hit.specs.Calls.{chord_at, hit_segment_answer};

use crate::best::Best;
use crate::chords::{offset, parameter};
use crate::located::locate;
use crate::opening::open_hit;
use geom::P;
use refusal::Refusal;

// A subpath, the anchor at which the segment starts, and the parameter along it.
#[derive(Clone, Copy, Debug, PartialEq)]
pub struct SegmentAt {
    pub subpath: usize,
    pub anchor: usize,
    pub t: f64,
}

// The best after the chords of a curve, candidates i to i + 47. Each point of the curve is computed once.
fn try_curve(c: [P; 4], i: usize, q: P, tol: f64, mut best: Best) -> Best
    requires { (Barred tol best) × (i ≤ 65536) }
    ensures best { result ≡ tried tol i (step_offset 48 q c) best 48 }
    ensures bar { Barred tol result }
{
    let mut from = cubic::step_at(c, 48, 0);
    for j in 0..48 {
        let to = cubic::step_at(c, 48, j + 1);
        best = best.take(i + j, offset(q, from, to), tol);
        from = to;
    }
    best
}

// The best after the segments of a subpath of n anchors, the first of which is at place k.
fn try_subpath(
    anchors: &[f64],
    k: usize,
    n: usize,
    closed: bool,
    q: P,
    tol: f64,
    mut best: Best,
) -> Best
    requires { (Barred tol best) × (k + n ≤ 512) × ((k + n) * 6 ≤ length anchors.now) }
    ensures best { result ≡ tried_from tol 48 q anchors.now k n closed best n }
    ensures bar { Barred tol result }
{
    // Kept: by index, from which come the test, the curve and the number of its first chord.
    for a in 0..n {
        if path::has_segment(n, closed, a) {
            best = try_curve(path::curve_at(anchors, k, n, a), (k + a) * 48, q, tol, best);
        }
    }
    best
}

// The number of the nearest chord.
fn nearest_chord(shapes: &[u32], anchors: &[f64], q: P, tol: f64) -> Option<usize>
    requires { (length shapes.now ≤ 32) × (total shapes.now ≤ 512) × (total shapes.now * 6 ≤ length anchors.now) × (in_limit tol ≡ true) }
    ensures { result ≡ nearest_chord shapes.now anchors.now 48 q tol }
{
    let mut best = Best::nothing(tol);
    let mut k = 0;
    for word in shapes {
        let n = path::count_of(*word);
        best = try_subpath(anchors, k, n, path::closed_of(*word), q, tol, best);
        k += n;
    }
    best.nearest.map(|c| c.number)
}

// Where chord i has its point nearest q.
fn chord_at(shapes: &[u32], anchors: &[f64], q: P, i: usize) -> SegmentAt
    requires { (i < total shapes.now * 48) × (total shapes.now ≤ 512) × (total shapes.now * 6 ≤ length anchors.now) }
    ensures { result ≡ chord_at 48 shapes.now anchors.now q i }
{
    let k = i / 48;
    let at = locate(shapes, k);
    let n = path::count_of(shapes[at.subpath]);
    let c = path::curve_at(anchors, k - at.anchor, n, at.anchor);
    SegmentAt {
        subpath: at.subpath,
        anchor: at.anchor,
        t: parameter(48, q, c, i % 48),
    }
}

// The point of the path nearest q, where it is not farther than tol, the first on ties.
pub fn hit_segment(
    shapes: &[u32],
    anchors: &[f64],
    q: P,
    tol: f64,
) -> Result<Option<SegmentAt>, Refusal>
    ensures { result ≡ hit_segment_answer shapes.now anchors.now q tol }
{
    open_hit(shapes, anchors, q, tol)?;
    match nearest_chord(shapes, anchors, q, tol) {
        Some(i) => Ok(Some(chord_at(shapes, anchors, q, i))),
        None => Ok(None),
    }
}
