// Anchors in a flat list of numbers: p, h_in, h_out, x before y, six a place.
ghost use Rattle.std.specs.Prelude.{◌≡◌, ◌+◌, ◌*◌, ◌≤◌, ◌<◌, length};
ghost use Rattle.path.specs.Flat.{anchor_at, put_anchor, curve_of};

use crate::anchor::Anchor;
use crate::shape::next;
use geom::P;

// The anchor at place k.
pub fn anchor_at(anchors: &[f64], k: usize) -> Anchor
    requires { k * 6 + 6 ≤ length anchors.now }
    ensures { result ≡ anchor_at anchors.now k }
{
    let b = k * 6;
    Anchor {
        p: P::new(anchors[b], anchors[b + 1]),
        h_in: P::new(anchors[b + 2], anchors[b + 3]),
        h_out: P::new(anchors[b + 4], anchors[b + 5]),
    }
}

// Puts an anchor to place k.
pub fn put_anchor(out: &mut [f64], k: usize, a: Anchor)
    requires { k * 6 + 6 ≤ length out.old }
    ensures { out.new ≡ put_anchor out.old k a }
{
    let b = k * 6;
    out[b] = a.p.x;
    out[b + 1] = a.p.y;
    out[b + 2] = a.h_in.x;
    out[b + 3] = a.h_in.y;
    out[b + 4] = a.h_out.x;
    out[b + 5] = a.h_out.y;
}

// The curve from anchor a of the n of a subpath, the first of which is at place k, to the next.
// Kept: k and n beside the list, which is the whole path's.
pub fn curve_at(anchors: &[f64], k: usize, n: usize, a: usize) -> [P; 4]
    requires { (a < n) × (k + n ≤ 1024) × ((k + n) * 6 ≤ length anchors.now) }
    ensures { result ≡ curve_of anchors.now k n a }
{
    anchor_at(anchors, k + a).cubic(anchor_at(anchors, k + next(n, a)))
}
