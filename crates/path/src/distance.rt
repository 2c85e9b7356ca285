// Lengths compared with 000's 1e-9, by their squares: no root is taken.
ghost use Rattle.std.specs.Prelude.{◌≡◌};
ghost use Rattle.std.specs.Float.Ieee.{lt, le};
ghost use Rattle.geom.specs.Point.{len};
ghost use Rattle.cubic.specs.Cubic.{CEPS};

use geom::P;

// Whether d is longer than 1e-9. The number here is the largest f64 whose root is not above 1e-9.
pub fn beyond(d: P) -> bool
    ensures { result ≡ lt CEPS (len d) }
{
    1.0000000000000003e-18 < d.dot(d)
}

// Whether d is shorter than 1e-9. The number here is the least f64 whose root is not below 1e-9.
pub fn short(d: P) -> bool
    ensures { result ≡ lt (len d) CEPS }
{
    d.dot(d) < 1e-18
}

// Whether d is no longer than 1e-9.
pub fn within(d: P) -> bool
    ensures { result ≡ le (len d) CEPS }
{
    d.dot(d) <= 1.0000000000000003e-18
}
