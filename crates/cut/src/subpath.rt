// A subpath of a drawing in flat lists, and the indices of it that are within some steps of one.
ghost use Rattle.std.specs.Prelude.{◌≡◌, ◌&&◌, ◌||◌, ltb, ℕ, ◌+◌, ◌≤◌, ◌<◌, ◌-◌, Float, length};
ghost use Rattle.path.specs.Flat.{anchor_at};
ghost use Rattle.path.specs.Shape.{prev, next};
ghost use Rattle.corner.specs.Corner.{Unmeasured};
ghost use Rattle.corner.specs.declared.kind.CornerKind.{CornerKind};
ghost use Rattle.cut.specs.Subpath.{Fits, view_of};
ghost use Rattle.cut.specs.Near.{gap, near, around, span_of};
ghost use Rattle.cut.specs.Places.{corner_at};

use corner::Corner;
use path::Anchor;

// The place of its first anchor, its anchor count, and whether it is closed.
#[derive(Clone, Copy, Debug, PartialEq, Eq, Hash)]
pub struct Sub {
    pub first: usize,
    pub n: usize,
    pub closed: bool,
}

impl Sub {
    // The anchor at index i.
    pub fn anchor(self, anchors: &[f64], i: usize) -> Anchor
        requires { Fits self (length anchors.now) × (i < self.n) }
        ensures { result ≡ anchor_at anchors.now (self.first + i) }
    {
        path::anchor_at(anchors, self.first + i)
    }

    // The index before i, round the start.
    pub fn before(self, i: usize) -> usize
        requires { i < self.n }
        ensures index { result ≡ prev self.n i }
        ensures inside { result < self.n }
    {
        path::prev(self.n, i)
    }

    // The index after i, round the end.
    pub fn after(self, i: usize) -> usize
        requires { i < self.n }
        ensures index { result ≡ next self.n i }
        ensures inside { result < self.n }
    {
        path::next(self.n, i)
    }
}

// An index of a subpath, and how many steps around it are meant.
#[derive(Clone, Copy, Debug, PartialEq, Eq, Hash)]
pub struct Window {
    pub at: usize,
    pub reach: usize,
}

// Whether j is within k steps of i, round the end where the subpath is closed.
pub fn near(k: usize, n: usize, closed: bool, i: usize, j: usize) -> bool
    requires { (k ≤ 4096) × (i ≤ 4096) × (j ≤ 4096) }
    ensures { result ≡ near k n closed i j }
{
    let d = i.abs_diff(j);
    d <= k || closed && n <= d + k
}

// The indices from `from` to below `to`.
// Kept: a type of its own and no `Range`, since what `span` promises is stated of it.
#[derive(Clone, Copy, Debug, PartialEq, Eq, Hash)]
pub struct Indices {
    pub from: usize,
    pub to: usize,
}

// Whether k steps from i may pass the end of a closed subpath.
fn around(k: usize, n: usize, closed: bool, i: usize) -> bool
    requires { (k ≤ 4096) × (i ≤ 4096) }
    ensures { result ≡ around k n closed i }
{
    closed && (i < k || n <= i + k)
}

// Where the indices within k steps of i are: in a row, unless the steps may pass the end of a closed subpath.
pub fn span(k: usize, n: usize, closed: bool, i: usize) -> Indices
    requires { (k ≤ 4096) × (i ≤ 4096) }
    ensures { result ≡ span_of k n closed i }
{
    if around(k, n, closed, i) {
        return Indices { from: 0, to: n };
    }
    Indices {
        from: i.saturating_sub(k),
        to: n.min(i + k + 1),
    }
}

// Whether a segment arrives at index i, and whether one leaves it.
pub fn arrives(sub: Sub, i: usize) -> bool
    ensures { result ≡ (sub.closed || ltb 0 i) }
{
    sub.closed || 0 < i
}

pub fn leaves(sub: Sub, i: usize) -> bool
    requires { i < sub.n }
    ensures { result ≡ (sub.closed || ltb (i + 1) sub.n) }
{
    sub.closed || i + 1 < sub.n
}

// Whether index i has both neighbours.
fn is_inner(sub: Sub, i: usize) -> bool
    requires { i < sub.n }
    ensures { result ≡ ((sub.closed || ltb 0 i) && (sub.closed || ltb (i + 1) sub.n)) }
{
    arrives(sub, i) && leaves(sub, i)
}

// The corner at index i, if there is one, its curved sides not yet measured: an open subpath's ends are none.
pub fn corner_at(anchors: &[f64], sub: Sub, i: usize) -> Option<Corner>
    requires { Fits sub (length anchors.now) × (i < sub.n) }
    ensures { (radius : ℕ → Float) (kind : ℕ → CornerKind) → Unmeasured 128 result (corner_at (view_of (anchor_at anchors.now) radius kind 128 sub) i) }
{
    if !is_inner(sub, i) {
        return None;
    }
    let prev = sub.anchor(anchors, sub.before(i));
    let next = sub.anchor(anchors, sub.after(i));
    Corner::of(sub.anchor(anchors, i), prev, next)
}
