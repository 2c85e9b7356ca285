// The points beside an anchor of a subpath.
// Kept: two functions, since they differ in both things that they say: the end that they test and the index that they read.
// Kept: first, n and closed beside the list, since the type of a subpath is of `cut`, on which this crate does not stand.
ghost use Rattle.std.specs.Prelude.{◌≡◌, ◌+◌, ◌*◌, ◌≤◌, ◌<◌, length};
ghost use Rattle.bend.specs.Smoothed.{point_before, point_after};

use geom::P;

// The point before anchor k of n, the first of which is at place `first`: none before an open end.
pub fn point_before(anchors: &[f64], first: usize, n: usize, closed: bool, k: usize) -> Option<P>
    requires { (k < n) × ((first + n) * 6 ≤ length anchors.now) }
    ensures { result ≡ point_before anchors.now first n closed k }
{
    if k == 0 && !closed {
        return None;
    }
    Some(path::anchor_at(anchors, first + path::prev(n, k)).p)
}

// The point after it: none after an open end.
pub fn point_after(anchors: &[f64], first: usize, n: usize, closed: bool, k: usize) -> Option<P>
    requires { (k < n) × ((first + n) * 6 ≤ length anchors.now) }
    ensures { result ≡ point_after anchors.now first n closed k }
{
    if k + 1 == n && !closed {
        return None;
    }
    Some(path::anchor_at(anchors, first + path::next(n, k)).p)
}
