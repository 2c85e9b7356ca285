// The tests of a hit: refusals 7 and 5.
ghost use Rattle.std.specs.Prelude.{◌≡◌};
ghost use Rattle.refusal.specs.Order.{answering};
ghost use Rattle.path.specs.Shape.{total};
ghost use Rattle.hit.specs.Calls.{query_in, hit_verdict};

use geom::P;
use refusal::{Reason, Refusal};

// Whether the loose arguments are within the limit.
fn query_in(q: P, tol: f64) -> bool
    ensures { result ≡ query_in q tol }
{
    q.in_limit() && real::in_limit(tol)
}

// How many anchors the path has, or the refusal.
pub fn open_hit(shapes: &[u32], anchors: &[f64], q: P, tol: f64) -> Result<usize, Refusal>
    ensures { result ≡ answering (hit_verdict shapes.now anchors.now q tol) (total shapes.now) }
{
    let n = call::open_path(512, shapes, anchors)?;
    if query_in(q, tol) {
        Ok(n)
    } else {
        Err(Reason::Arguments.at(n))
    }
}
