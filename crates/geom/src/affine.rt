// Affine maps [a b c d e f], in SVG's order.
ghost use Rattle.std.specs.Prelude.{◌≡◌};
ghost use Rattle.geom.specs.Affine.{affine_apply};

use crate::point::P;

// x' = a·x + c·y + e, y' = b·x + d·y + f.
pub fn affine_apply(m: [f64; 6], p: P) -> P
    ensures { result ≡ affine_apply m p }
{
    P {
        x: m[0] * p.x + m[2] * p.y + m[4],
        y: m[1] * p.x + m[3] * p.y + m[5],
    }
}
