// Points and derivatives along a cubic.
ghost use Rattle.std.specs.Prelude.{◌≡◌, ◌+◌, ◌*◌, ◌^◌, ◌≤◌, ◌<◌, length};
ghost use Rattle.geom.specs.Flat.{coordinates};
ghost use Rattle.views.specs.View.{overwrite};
ghost use Rattle.cubic.specs.Cubic.{cubic_at, deriv_at};
ghost use Rattle.cubic.specs.Sample.{straight, steps, step_at, sample_count};

use geom::P;

// u³·c0 + 3u²t·c1 + 3ut²·c2 + t³·c3, with u = 1 - t.
pub fn cubic_at(c: [P; 4], t: f64) -> P
    ensures { result ≡ cubic_at c t }
{
    let u = 1.0 - t;
    c[0] * (u * u * u) + c[1] * (3.0 * u * u * t) + c[2] * (3.0 * u * t * t) + c[3] * (t * t * t)
}

// 3s²·(c1 - c0) + 6st·(c2 - c1) + 3t²·(c3 - c2), with s = 1 - t.
pub fn deriv_at(c: [P; 4], t: f64) -> P
    ensures { result ≡ deriv_at c t }
{
    let s = 1.0 - t;
    (c[1] - c[0]) * (3.0 * s * s) + (c[2] - c[1]) * (6.0 * s * t) + (c[3] - c[2]) * (3.0 * t * t)
}

// Whether both handles stand on their ends.
pub fn straight(c: [P; 4]) -> bool
    ensures { result ≡ straight c }
{
    c[1] == c[0] && c[2] == c[3]
}

// How many steps `sample` takes: one along a straight line, else n, and at least one.
pub fn steps(c: [P; 4], n: usize) -> usize
    ensures { result ≡ steps c n }
{
    if straight(c) { 1 } else { n.max(1) }
}

// The point after k of n steps.
pub fn step_at(c: [P; 4], n: usize, k: usize) -> P
    requires { (n ≤ 2 ^ 53) × (k ≤ 2 ^ 53) }
    ensures { result ≡ step_at c n k }
{
    cubic_at(c, k as f64 / n as f64)
}

// The points of `steps(c, n)` steps, from the curve's start to its end, x before y. The answer is how many.
pub fn sample(c: [P; 4], n: usize, out: &mut [f64]) -> usize
    requires { (n < 2 ^ 53) × (2 * sample_count c n ≤ length out.old) }
    ensures count { result ≡ sample_count c n }
    ensures points { out.new ≡ overwrite (2 * sample_count c n) (coordinates (step_at c (steps c n))) out.old }
{
    let m = steps(c, n);
    // Kept: by index, since a proof learns only the length of what `chunks_exact_mut` leaves; and two numbers a point, as the C interface has them.
    for k in 0..m + 1 {
        let p = step_at(c, m, k);
        out[2 * k] = p.x;
        out[2 * k + 1] = p.y;
    }
    m + 1
}
