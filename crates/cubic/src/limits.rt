// The limit on control points.
ghost use Rattle.std.specs.Prelude.{◌≡◌};
ghost use Rattle.cubic.specs.Limits.{curve_in};

use geom::P;

// Whether each of the four control points is within the limit.
pub fn curve_in_limit(c: [P; 4]) -> bool
    ensures { result ≡ curve_in c }
{
    c.iter().all(|p| p.in_limit())
}
