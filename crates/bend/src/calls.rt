// `auto_smooth` and `bend_segment`, with their refusals: 7, 5, 6, 9 at the lowest place that they would give a number beyond the limit.
ghost use Rattle.std.specs.Prelude.{◌≡◌, true, ℕ, ◌*◌, ◌≤◌, ◌<◌, length};
ghost use Rattle.path.specs.Shape.{count_of, word_at, total};
ghost use Rattle.path.specs.Limit.{anchor_in};
ghost use Rattle.refusal.specs.Order.{answering};
ghost use Rattle.call.specs.Answers.{anchors_left};
ghost use Rattle.bend.specs.Edits.{has_bend, last_verdict, smooth_path, smooth_answer, smooth_left, bend_path, bend_answer, bend_left};

use crate::bending::{bent_in, bent_out, pull};
use crate::limits::first_out;
use crate::neighbours::{point_after, point_before};
use crate::places::has_bend;
use crate::smoothing::smoothed;
use call::Outline;
use geom::P;
use refusal::{Reason, Refusal};

// Smooth handles for anchor k of subpath s, along its neighbours.
pub fn auto_smooth(
    shapes: &[u32],
    anchors: &mut [f64],
    s: usize,
    k: usize,
) -> Result<Outline, Refusal>
    ensures answer { result ≡ smooth_answer shapes.now anchors.old s k }
    ensures anchors { anchors.new ≡ smooth_left shapes.now anchors.old s k }
{
    let count = call::open_path(512, shapes, anchors)?;
    if !path::has_anchor(shapes, s, k) {
        return Err(Reason::Reference.at(0));
    }
    smooth_known(shapes, anchors, s, k)?;
    Ok(Outline {
        subpaths: shapes.len(),
        anchors: count,
    })
}

// The same of an anchor that there is, in a path that passed its tests.
#[tactic(auto, using(path::proofs::Shapes::total_in))]
fn smooth_known(shapes: &[u32], anchors: &mut [f64], s: usize, k: usize) -> Result<(), Refusal>
    requires { (length shapes.now ≤ 32) × (total shapes.now ≤ 512) × (total shapes.now * 6 ≤ length anchors.old) × (s < length shapes.now) × (k < count_of (word_at shapes.now s)) × ((q : ℕ) → q < total shapes.now → anchor_in anchors.old q ≡ true) }
    ensures answer { result ≡ answering (last_verdict (smooth_path shapes.now anchors.old s k)) tt }
    ensures anchors { anchors.new ≡ anchors_left (last_verdict (smooth_path shapes.now anchors.old s k)) (smooth_path shapes.now anchors.old s k) anchors.old }
{
    let n = path::count_of(shapes[s]);
    if n < 2 {
        return Ok(());
    }
    let closed = path::closed_of(shapes[s]);
    let first = path::start_of(shapes, s);
    let before = point_before(anchors, first, n, closed, k);
    let after = point_after(anchors, first, n, closed, k);
    let place = first + k;
    let a = smoothed(before, path::anchor_at(anchors, place), after);
    if !a.in_limit() {
        return Err(Reason::Made.at(place));
    }
    path::put_anchor(anchors, place, a);
    Ok(())
}

// The segment from anchor a of subpath s to the next, bent so that its point at t moves by delta; t counts as 0.08 below that, as 0.92
// above that. Where `keep` is set, a smooth anchor stays smooth: its other handle turns with the one that moves.
// Kept: `keep` as the bool that the call is given; each function hands it on to the one that tests it.
pub fn bend_segment(
    shapes: &[u32],
    anchors: &mut [f64],
    s: usize,
    a: usize,
    t: f64,
    delta: P,
    keep: bool,
) -> Result<Outline, Refusal>
    ensures answer { result ≡ bend_answer shapes.now anchors.old s a t delta keep }
    ensures anchors { anchors.new ≡ bend_left shapes.now anchors.old s a t delta keep }
{
    let count = call::open_path(512, shapes, anchors)?;
    if !real::in_limit(t) || !delta.in_limit() {
        return Err(Reason::Arguments.at(count));
    }
    if !has_bend(shapes, s, a) {
        return Err(Reason::Reference.at(0));
    }
    bend_known(shapes, anchors, s, a, pull(t, delta), keep)?;
    Ok(Outline {
        subpaths: shapes.len(),
        anchors: count,
    })
}

// The same of a segment that there is, in a path that passed its tests, its inner control points moving by v.
// Kept: `keep` handed on, as above.
#[tactic(auto, using(crate::proofs::Bends::bend_subpath, crate::proofs::Bends::bend_places, crate::proofs::Bends::bend_index, crate::proofs::Bends::next_inside))]
fn bend_known(
    shapes: &[u32],
    anchors: &mut [f64],
    s: usize,
    a: usize,
    v: P,
    keep: bool,
) -> Result<(), Refusal>
    requires { (length shapes.now ≤ 32) × (total shapes.now ≤ 512) × (total shapes.now * 6 ≤ length anchors.old) × (has_bend shapes.now s a ≡ true) × ((q : ℕ) → q < total shapes.now → anchor_in anchors.old q ≡ true) }
    ensures answer { result ≡ answering (last_verdict (bend_path shapes.now anchors.old s a v keep)) tt }
    ensures anchors { anchors.new ≡ anchors_left (last_verdict (bend_path shapes.now anchors.old s a v keep)) (bend_path shapes.now anchors.old s a v keep) anchors.old }
{
    let n = path::count_of(shapes[s]);
    if n < 2 {
        return Ok(());
    }
    let first = path::start_of(shapes, s);
    let i = first + a;
    let j = first + path::next(n, a);
    let from = bent_out(v, keep, path::anchor_at(anchors, i));
    let to = bent_in(v, keep, path::anchor_at(anchors, j));
    if let Some(place) = first_out(i, from, j, to) {
        return Err(Reason::Made.at(place));
    }
    path::put_anchor(anchors, i, from);
    path::put_anchor(anchors, j, to);
    Ok(())
}
