// Handles of circular arcs.
#![tactic(auto, unfolding(crate::specs::Arc::square_to, crate::specs::Arc::arc_handle))]

ghost use Rattle.std.specs.Prelude.{◌≡◌};
ghost use Rattle.arc.specs.Arc.{square_to, arc_handle};

use geom::P;
use side::unit;

// The unit direction square to unit a, on b's side, or no direction.
pub fn square_to(a: P, b: P) -> P
    ensures { result ≡ square_to a b }
{
    let w = b - a * a.dot(b);
    if path::beyond(w) {
        return unit(w);
    }
    P { x: 0.0, y: 0.0 }
}

// Handle length per unit radius of a cubic arc that spans an angle with this cosine: 4/3 · tan(angle / 4).
pub fn arc_handle(cos: f64) -> f64
    ensures { result ≡ arc_handle cos }
{
    if real::abs(cos) < 1e-12 {
        return 0.5522847498;
    }
    let k = real::clamp(cos, -1.0, 1.0);
    let sin_half = root::root(real::max((1.0 - k) / 2.0, 0.0));
    let cos_half = root::root(real::max((1.0 + k) / 2.0, 0.0));
    4.0 / 3.0 * sin_half / (1.0 + cos_half)
}
