// The text of segments, subpaths and paths.
ghost use Rattle.std.specs.Prelude.{[], ◌∷◌, ℕ, ◌+◌, ◌*◌, ◌≤◌, ◌<◌, length};
ghost use Rattle.decimal.specs.Put.{Put, Adds};
ghost use Rattle.path.specs.Shape.{total};
ghost use Rattle.path.specs.Flat.{anchor_at};
ghost use Rattle.svg.specs.Path.{bent, drawn, closing, subpath, text_of};
ghost use Rattle.svg.specs.Pieces.{glue, AnchorIn, Placed};

use crate::commands::{put_close, put_curve, put_line, put_move};
use decimal::Text;
use path::{Anchor, anchor_at};

// Puts a curve from a to b.
#[tactic(auto, unfolding(crate::specs::Path::bent))]
fn put_bent(text: &mut Text<'_>, a: Anchor, b: Anchor)
    requires { (AnchorIn a) × (AnchorIn b) }
    ensures text { Adds text.old (glue text.old.at (bent a b ∷ [])) text.new }
    ensures room { text.new.at ≤ text.old.at + 73 }
{
    put_curve(text, a.h_out, b.h_in, b.p);
}

// Puts the segment from a to b: a line where it is straight.
#[tactic(auto, unfolding(crate::specs::Path::drawn, crate::specs::Path::is_straight))]
fn put_segment(text: &mut Text<'_>, a: Anchor, b: Anchor)
    requires { (AnchorIn a) × (AnchorIn b) }
    ensures text { Adds text.old (glue text.old.at (drawn a b ∷ [])) text.new }
    ensures room { text.new.at ≤ text.old.at + 73 }
{
    if cubic::straight(a.cubic(b)) {
        put_line(text, b.p);
    } else {
        put_bent(text, a, b);
    }
}

// Puts what closes a subpath whose last anchor is m after k: a curve where the way back is not straight, and Z.
// Kept: a place and a count beside the list, here and below, since the list is the whole path's.
fn put_closing(text: &mut Text<'_>, anchors: &[f64], k: usize, m: usize)
    requires { (Placed anchors.now k) × (Placed anchors.now (k + m)) × (k + m < 1024) }
    ensures text { Adds text.old (glue text.old.at (closing (anchor_at anchors.now) k m)) text.new }
    ensures room { text.new.at ≤ text.old.at + 75 }
{
    let last = anchor_at(anchors, k + m);
    let first = anchor_at(anchors, k);
    let straight = cubic::straight(last.cubic(first));
    if m != 0 && !straight {
        put_bent(text, last, first);
    }
    put_close(text);
}

// Puts a subpath of n anchors, at least one, the first of which is at place k.
fn put_subpath(text: &mut Text<'_>, anchors: &[f64], k: usize, n: usize, closed: bool)
    requires by_index { (j : ℕ) → k ≤ j → j < k + n → Placed anchors.now j }
    requires n_bound { (0 < n) × (k + n ≤ 1024) }
    ensures text { Adds text.old (glue text.old.at (subpath (anchor_at anchors.now) k n closed)) text.new }
    ensures room { text.new.at ≤ text.old.at + 73 * n + 27 }
{
    put_move(text, anchor_at(anchors, k).p);
    for j in k..k + n - 1 {
        put_segment(text, anchor_at(anchors, j), anchor_at(anchors, j + 1));
    }
    if closed {
        put_closing(text, anchors, k, n - 1);
    }
}

// Puts the text of a path.
pub fn put_path(shapes: &[u32], anchors: &[f64], out: &mut [u8]) -> usize
    requires by_index { (j : ℕ) → j < total shapes.now → Placed anchors.now j }
    requires shapes_len_bound { (length shapes.now ≤ 32) × (total shapes.now ≤ 1024) }
    ensures text { Put out.old 0 (text_of shapes.now (anchor_at anchors.now)) out.new result }
    ensures room { result ≤ 73 * total shapes.now + 27 * length shapes.now }
{
    let mut text = Text::new(out);
    let mut k: usize = 0;
    for word in shapes {
        let n = path::count_of(*word);
        if n > 0 {
            put_subpath(&mut text, anchors, k, n, path::closed_of(*word));
        }
        k += n;
    }
    text.len()
}
