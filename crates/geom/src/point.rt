// `P`: a point, or a vector, of the plane.
ghost use Rattle.std.specs.Prelude.{◌≡◌};
ghost use Rattle.geom.specs.Point.{point, plus, minus, times, point_in, dot, cross, len, dist, lerp};

use std::ops::{Add, Mul, Sub};

// Equal by number: -0 is 0, and a NaN is nothing's equal.
#[derive(Clone, Copy, Debug, PartialEq)]
pub struct P {
    pub x: f64,
    pub y: f64,
}

impl P {
    pub fn new(x: f64, y: f64) -> P
        ensures { result ≡ point x y }
    {
        P { x, y }
    }

    // Whether both coordinates are within the limit.
    pub fn in_limit(self) -> bool
        ensures { result ≡ point_in self }
    {
        real::in_limit(self.x) && real::in_limit(self.y)
    }

    pub fn dot(self, o: P) -> f64
        ensures { result ≡ dot self o }
    {
        self.x * o.x + self.y * o.y
    }

    pub fn len(self) -> f64
        ensures { result ≡ len self }
    {
        root::root(self.x * self.x + self.y * self.y)
    }

    pub fn dist(self, o: P) -> f64
        ensures { result ≡ dist self o }
    {
        (self - o).len()
    }

    // The same two, where `hint` may be the answer: whatever it is, the contract is theirs.
    pub fn len_near(self, hint: f64) -> f64
        ensures { result ≡ len self }
    {
        root::root_near(self.x * self.x + self.y * self.y, hint)
    }

    pub fn dist_near(self, o: P, hint: f64) -> f64
        ensures { result ≡ dist self o }
    {
        (self - o).len_near(hint)
    }

    // The point t of the way to o.
    pub fn lerp(self, o: P, t: f64) -> P
        ensures { result ≡ lerp self o t }
    {
        self + (o - self) * t
    }
}

impl Add for P {
    type Output = P;

    ghost add_gives = { λ a b r. r ≡ plus a b };

    fn add(self, o: P) -> P {
        P::new(self.x + o.x, self.y + o.y)
    }
}

impl Sub for P {
    type Output = P;

    ghost sub_gives = { λ a b r. r ≡ minus a b };

    fn sub(self, o: P) -> P {
        P::new(self.x - o.x, self.y - o.y)
    }
}

impl Mul<f64> for P {
    type Output = P;

    ghost mul_gives = { λ a s r. r ≡ times a s };

    fn mul(self, s: f64) -> P {
        P::new(self.x * s, self.y * s)
    }
}

// The z component of the cross product: twice the area that a and b span, with its sign.
pub fn cross(a: P, b: P) -> f64
    ensures { result ≡ cross a b }
{
    a.x * b.y - a.y * b.x
}
