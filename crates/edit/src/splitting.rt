// `split`: an anchor put into a segment, which keeps its course.
ghost use Rattle.std.specs.Prelude.{◌≡◌, ℕ, ◌+◌, ◌*◌, ◌≤◌, ◌<◌, length};
ghost use Rattle.path.specs.Flat.{put_anchor};
ghost use Rattle.path.specs.Shape.{word_at};
ghost use Rattle.path.specs.Limit.{anchor_in, first_bad};
ghost use Rattle.path.proofs.Limits.{GoodBelow};
ghost use Rattle.call.specs.Answers.{outline_answer, list_left, anchors_left};
ghost use Rattle.edit.specs.Gap.{gapped};
ghost use Rattle.edit.specs.Split.{shifted, halves, puts_within, split_places, split_shapes, Ends, Splittable, Growable, made_verdict, split_answer, split_shapes_left, split_anchors_left};

use crate::gap::shift_up;
use call::Outline;
use path::Anchor;
use refusal::{Reason, Refusal};

// The ends of a split segment, and the anchor between them.
#[derive(Clone, Copy, Debug, PartialEq)]
pub struct Halved {
    pub left: Anchor,
    pub middle: Anchor,
    pub right: Anchor,
}

pub fn halves(a: Anchor, b: Anchor, t: f64) -> Halved
    ensures { result ≡ halves a b t }
{
    let h = cubic::split_cubic(a.cubic(b), t);
    Halved {
        left: Anchor {
            p: a.p,
            h_in: a.h_in,
            h_out: h.before[1],
        },
        middle: Anchor {
            p: h.before[3],
            h_in: h.before[2],
            h_out: h.after[1],
        },
        right: Anchor {
            p: b.p,
            h_in: h.after[2],
            h_out: b.h_out,
        },
    }
}

// The index that j has once an anchor is put in after a.
pub fn shifted(a: usize, j: usize) -> usize
    requires { j < 1024 }
    ensures { result ≡ shifted a j }
{
    if a < j { j + 1 } else { j }
}

// The first place that breaks the limit, where the three anchors go to a, a + 1 and b.
pub fn first_out(h: Halved, a: usize, b: usize) -> Option<usize>
    requires { (a < 1024) × (a ≡ b → ⊥) × (a + 1 ≡ b → ⊥) }
    ensures { (n : ℕ) → a + 1 < n → b < n → result ≡ first_bad (puts_within h a b) n }
{
    let last = h.right.in_limit();
    if b < a && !last {
        return Some(b);
    }
    if !h.left.in_limit() {
        return Some(a);
    }
    if !h.middle.in_limit() {
        return Some(a + 1);
    }
    if last { None } else { Some(b) }
}

// Puts a new anchor into the segment between two places of a path of n anchors.
// Kept: n beside the list, which is lent longer than what it holds, and here takes one anchor more.
pub fn put_halves(anchors: &mut [f64], n: usize, a: usize, b: usize, h: Halved)
    requires { Splittable anchors.old n a b }
    ensures { anchors.new ≡ put_anchor (put_anchor (put_anchor (gapped anchors.old (a + 1) n 6) a h.left) (a + 1) h.middle) (shifted a b) h.right }
{
    shift_up(anchors, a + 1, n, 6);
    path::put_anchor(anchors, a, h.left);
    path::put_anchor(anchors, a + 1, h.middle);
    path::put_anchor(anchors, shifted(a, b), h.right);
}

// One anchor more in subpath s.
pub fn count_up(shapes: &mut [u32], s: usize)
    requires { Growable shapes.old s }
    ensures { shapes.new ≡ split_shapes shapes.old s }
{
    shapes[s] += 1;
}

// Splits the segment between two places of a path that passed the tests before: 9 and 8 are left.
// Kept: n beside the list, whose room for one anchor more is still to be tested.
fn split_between(
    shapes: &mut [u32],
    anchors: &mut [f64],
    n: usize,
    s: usize,
    a: usize,
    b: usize,
    t: f64,
) -> Result<Outline, Refusal>
    requires { Growable shapes.old s × Ends n a b × (n * 6 ≤ length anchors.old) × GoodBelow (anchor_in anchors.old) n }
    ensures answer { result ≡ outline_answer (made_verdict (split_places anchors.old n a b t) shapes.old anchors.old) (length shapes.old) (n + 1) }
    ensures shapes { shapes.new ≡ list_left (made_verdict (split_places anchors.old n a b t) shapes.old anchors.old) (length shapes.old) (word_at (split_shapes shapes.old s)) shapes.old }
    ensures anchors { anchors.new ≡ anchors_left (made_verdict (split_places anchors.old n a b t) shapes.old anchors.old) (split_places anchors.old n a b t) anchors.old }
{
    let h = halves(path::anchor_at(anchors, a), path::anchor_at(anchors, b), t);
    if let Some(k) = first_out(h, a, shifted(a, b)) {
        return Err(Reason::Made.at(k));
    }
    if anchors.len() < n * 6 + 6 {
        return Err(Reason::Output.at(0));
    }
    put_halves(anchors, n, a, b, h);
    count_up(shapes, s);
    Ok(Outline {
        subpaths: shapes.len(),
        anchors: n + 1,
    })
}

// Cuts the segment of subpath s that starts at anchor a in two, at t.
pub fn split(
    shapes: &mut [u32],
    anchors: &mut [f64],
    s: usize,
    a: usize,
    t: f64,
) -> Result<Outline, Refusal>
    ensures answer { result ≡ split_answer shapes.old anchors.old s a t }
    ensures shapes { shapes.new ≡ split_shapes_left shapes.old anchors.old s a t }
    ensures anchors { anchors.new ≡ split_anchors_left shapes.old anchors.old s a t }
{
    let n = call::open_path(512, shapes, anchors)?;
    if !real::in_limit(t) {
        return Err(Reason::Arguments.at(n));
    }
    if shapes.len() <= s {
        return Err(Reason::Reference.at(0));
    }
    let count = path::count_of(shapes[s]);
    if !path::has_segment(count, path::closed_of(shapes[s]), a) {
        return Err(Reason::Reference.at(0));
    }
    if n >= 512 {
        return Err(Reason::Capacity.at(0));
    }
    let first = path::start_of(shapes, s);
    let b = first + path::next(count, a);
    split_between(shapes, anchors, n, s, first + a, b, t)
}
