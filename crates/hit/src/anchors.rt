// `hit_anchor`: the anchor nearest a point, within a tolerance.
ghost use Rattle.std.specs.Prelude.{◌≡◌, true, ◌*◌, ◌≤◌, length};
ghost use Rattle.real.specs.Limit.{in_limit};
ghost use Rattle.hit.specs.Calls.{nearest_anchor, hit_anchor_answer};

use crate::best::Best;
use crate::located::locate;
use crate::opening::open_hit;
use geom::P;
use path::AnchorRef;
use refusal::Refusal;

// The place of the nearest of n anchors.
// Kept: n beside the list, which is lent longer than what it holds.
fn nearest_place(anchors: &[f64], n: usize, q: P, tol: f64) -> Option<usize>
    requires { (n ≤ 512) × (n * 6 ≤ length anchors.now) × (in_limit tol ≡ true) }
    ensures { result ≡ nearest_anchor anchors.now q tol n }
{
    let mut best = Best::nothing(tol);
    // Kept: by place, since a chunk of six numbers would have to be read as place 0 of itself, and its number counted beside it.
    for k in 0..n {
        let p = path::anchor_at(anchors, k).p;
        best = best.take(k, p - q, tol);
    }
    best.nearest.map(|c| c.number)
}

// The anchor nearest q, of those not farther than tol, the first on ties.
pub fn hit_anchor(
    shapes: &[u32],
    anchors: &[f64],
    q: P,
    tol: f64,
) -> Result<Option<AnchorRef>, Refusal>
    ensures { result ≡ hit_anchor_answer shapes.now anchors.now q tol }
{
    let n = open_hit(shapes, anchors, q, tol)?;
    match nearest_place(anchors, n, q, tol) {
        Some(k) => Ok(Some(locate(shapes, k))),
        None => Ok(None),
    }
}
