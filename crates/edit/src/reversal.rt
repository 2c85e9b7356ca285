// `reversed`: a subpath passed the other way.
// Kept: anchors and radii by themselves, as the C interface lends them.
ghost use Rattle.std.specs.Prelude.{◌≡◌, ◌+◌, ◌*◌, ◌≤◌, length};
ghost use Rattle.views.specs.View.{tabulate};
ghost use Rattle.path.specs.Flat.{anchor_at, put_anchor, listed};
ghost use Rattle.edit.specs.Reversed.{turned, reversed_anchors, reversed_answer, reversed_left};

use call::Outline;
use path::Anchor;
use refusal::{Reason, Refusal};

// An anchor passed the other way: its handles change sides.
pub fn turned(a: Anchor) -> Anchor
    ensures { result ≡ turned a }
{
    Anchor {
        p: a.p,
        h_in: a.h_out,
        h_out: a.h_in,
    }
}

// Two anchors change places, each passed the other way.
fn exchange(anchors: &mut [f64], u: usize, v: usize)
    requires { (u * 6 + 6 ≤ length anchors.old) × (v * 6 + 6 ≤ length anchors.old) }
    ensures { anchors.new ≡ put_anchor (put_anchor anchors.old u (turned (anchor_at anchors.old v))) v (turned (anchor_at anchors.old u)) }
{
    let a = path::anchor_at(anchors, u);
    let b = path::anchor_at(anchors, v);
    path::put_anchor(anchors, u, turned(b));
    path::put_anchor(anchors, v, turned(a));
}

// Turns the n anchors from place `first` on round, of a path of `all` anchors: each changes places with the one as far from the other end.
// Kept: the count beside the list, which is lent longer than what it holds.
fn turn_round(anchors: &mut [f64], all: usize, first: usize, n: usize)
    requires { (all ≤ 512) × (all * 6 ≤ length anchors.old) × (first + n ≤ all) }
    ensures { anchors.new ≡ listed (tabulate all (reversed_anchors (anchor_at anchors.old) first n)) anchors.old }
{
    let half = (n + 1) / 2;
    // Kept: by the distance from either end, from which both places are counted; a proof learns only the length of what iter_mut leaves.
    for i in 0..half {
        exchange(anchors, first + i, first + (n - 1 - i));
    }
}

// The anchors of subpath s of a drawing in the other direction. The radii keep their order.
pub fn reversed(
    shapes: &[u32],
    anchors: &mut [f64],
    radii: &[f64],
    s: usize,
) -> Result<Outline, Refusal>
    ensures answer { result ≡ reversed_answer shapes.now anchors.old radii.now s }
    ensures anchors { anchors.new ≡ reversed_left shapes.now anchors.old radii.now s }
{
    let n = call::open_drawing(shapes, anchors, radii)?;
    if shapes.len() <= s {
        return Err(Reason::Reference.at(0));
    }
    turn_round(
        anchors,
        n,
        path::start_of(shapes, s),
        path::count_of(shapes[s]),
    );
    Ok(Outline {
        subpaths: shapes.len(),
        anchors: n,
    })
}
