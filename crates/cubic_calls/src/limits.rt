// The limit on a list's numbers, and how a result is written to a lent list.
ghost use Rattle.std.specs.Prelude.{◌≡◌, ◌≤◌, length};
ghost use Rattle.views.specs.View.{entry, overwrite};
ghost use Rattle.views.specs.Search.{all};
ghost use Rattle.real.specs.Limit.{in_limit};
ghost use Rattle.geom.specs.Flat.{pt, coordinates};

use geom::P;

// Whether each number of a list is within the limit.
pub fn numbers_in_limit(xs: &[f64]) -> bool
    ensures { result ≡ all (λ i. in_limit (entry xs.now i)) (length xs.now) }
{
    xs.iter().all(|x| real::in_limit(*x))
}

// The four control points, x before y.
pub fn put_curve(c: [P; 4], to: &mut [f64])
    requires { 8 ≤ length to.old }
    ensures { to.new ≡ overwrite 8 (coordinates (pt c)) to.old }
{
    // Kept: by index, since a proof learns only the length of what chunks_exact_mut leaves.
    for (k, p) in c.iter().enumerate() {
        to[2 * k] = p.x;
        to[2 * k + 1] = p.y;
    }
}
