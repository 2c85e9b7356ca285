// `Bounds`: the least box, sides along the axes, around the points that were added to it.
ghost use Rattle.std.specs.Prelude.{◌≡◌};
ghost use Rattle.geom.specs.Box.{no_point, grown, is_empty};

use crate::point::P;

#[derive(Clone, Copy, Debug, PartialEq)]
pub struct Bounds {
    pub min: P,
    pub max: P,
}

impl Bounds {
    // The box of no point: from +infinity to -infinity.
    pub fn empty() -> Bounds
        ensures { result ≡ no_point }
    {
        Bounds {
            min: P::new(f64::INFINITY, f64::INFINITY),
            max: P::new(f64::NEG_INFINITY, f64::NEG_INFINITY),
        }
    }

    // The box with one point more.
    pub fn add(self, p: P) -> Bounds
        ensures { result ≡ grown self p }
    {
        Bounds {
            min: P::new(real::min(self.min.x, p.x), real::min(self.min.y, p.y)),
            max: P::new(real::max(self.max.x, p.x), real::max(self.max.y, p.y)),
        }
    }

    pub fn is_empty(self) -> bool
        ensures { result ≡ is_empty self }
    {
        self.max.x < self.min.x
    }
}
