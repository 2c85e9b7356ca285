// Cubics cut in parts, by de Casteljau's subdivision.
ghost use Rattle.std.specs.Prelude.{◌≡◌};
ghost use Rattle.cubic.specs.Cubic.{split_cubic, subsegment};

use geom::P;

// A cubic split in two.
#[derive(Clone, Copy, Debug, PartialEq)]
pub struct Halves {
    pub before: [P; 4],
    pub after: [P; 4],
}

// The curve before t and the curve after it.
pub fn split_cubic(c: [P; 4], t: f64) -> Halves
    ensures { result ≡ split_cubic c t }
{
    let p01 = c[0].lerp(c[1], t);
    let p12 = c[1].lerp(c[2], t);
    let p23 = c[2].lerp(c[3], t);
    let p012 = p01.lerp(p12, t);
    let p123 = p12.lerp(p23, t);
    let m = p012.lerp(p123, t);
    Halves {
        before: [c[0], p01, p012, m],
        after: [m, p123, p23, c[3]],
    }
}

// The part of a cubic between two parameters, 000's t0 and t1: its start, four times, where the second is not above 1e-9.
pub fn subsegment(c: [P; 4], from: f64, to: f64) -> [P; 4]
    ensures { result ≡ subsegment c from to }
{
    if to <= 1e-9 {
        return [c[0], c[0], c[0], c[0]];
    }
    let left = split_cubic(c, real::min(to, 1.0)).before;
    split_cubic(left, real::clamp(from / to, 0.0, 1.0)).after
}
