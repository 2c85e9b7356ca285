// The chords of a segment: the point of a chord nearest another point.
ghost use Rattle.std.specs.Prelude.{◌≡◌, ◌+◌, ◌*◌, ◌^◌, ◌≤◌, ◌<◌, length};
ghost use Rattle.hit.specs.Steps.{along, offset, step_parameter};

use geom::P;

// How much of the chord from a to b lies before its point nearest q, from 0 to 1; 0 where the chord is too short to tell.
pub fn along(q: P, a: P, b: P) -> f64
    ensures { result ≡ along q a b }
{
    let d = b - a;
    let square = d.dot(d);
    if 1e-12 < square {
        real::clamp((q - a).dot(d) / square, 0.0, 1.0)
    } else {
        0.0
    }
}

// From q to that point.
pub fn offset(q: P, a: P, b: P) -> P
    ensures { result ≡ offset q a b }
{
    a + (b - a) * along(q, a, b) - q
}

// The parameter, on the curve, of the point of chord j of n nearest q.
pub fn parameter(n: usize, q: P, c: [P; 4], j: usize) -> f64
    requires { (n ≤ 2 ^ 53) × (j < 2 ^ 53) }
    ensures { result ≡ step_parameter n q c j }
{
    let u = along(q, cubic::step_at(c, n, j), cubic::step_at(c, n, j + 1));
    let from = j as f64 / n as f64;
    let to = (j + 1) as f64 / n as f64;
    from + (to - from) * u
}
