// `Corner`: where two sides meet at an angle.
ghost use Rattle.std.specs.Prelude.{◌≡◌};
ghost use Rattle.corner.specs.Corner.{with_lengths, Unmeasured, corner_of, meet, sharp, cos, sin, setback, radius_at_setback, max_radius, room, max_radius_beside, on_bisector, radius_change};

use geom::{P, cross};
use path::Anchor;
use side::{Heading, Side};

// The point, the unit directions in which the sides leave it (towards the previous anchor, then the next), the sides'
// lengths, and the sides.
#[derive(Clone, Copy, Debug, PartialEq)]
pub struct Corner {
    pub at: P,
    pub u: P,
    pub v: P,
    pub lu: f64,
    pub lv: f64,
    pub side_u: Side,
    pub side_v: Side,
}

impl Corner {
    // The corner that anchor a makes between its neighbours, if it makes one, its curved sides not yet measured.
    pub fn of(a: Anchor, prev: Anchor, next: Anchor) -> Option<Corner>
        ensures { Unmeasured 128 result (corner_of 128 a prev next) }
    {
        if a.is_smooth() {
            return None;
        }
        let side_u = Side::of(a.p, a.h_in, prev.h_out, prev.p);
        let side_v = Side::of(a.p, a.h_out, next.h_in, next.p);
        let hu = side_u.direction()?;
        let hv = side_v.direction()?;
        Corner::meet(a.p, hu, hv, side_u, side_v)
    }

    // The corner at which two sides leave with these headings.
    fn meet(at: P, hu: Heading, hv: Heading, side_u: Side, side_v: Side) -> Option<Corner>
        ensures { Unmeasured 128 result (meet 128 at hu.along hv.along side_u side_v) }
    {
        let c = Corner {
            at,
            u: hu.along,
            v: hv.along,
            lu: side_u.reach(hu.far),
            lv: side_v.reach(hv.far),
            side_u,
            side_v,
        };
        if c.sharp() { Some(c) } else { None }
    }

    // Whether both sides are longer than 1e-9, and finite, and meet at an angle.
    fn sharp(self) -> bool
        ensures { result ≡ sharp self }
    {
        1e-9 < self.lu
            && 1e-9 < self.lv
            && real::is_finite(self.lu)
            && real::is_finite(self.lv)
            && 1e-6 < self.sin()
    }

    // The corner with its sides' lengths.
    pub fn measured(self) -> Corner
        ensures { result ≡ with_lengths 128 self }
    {
        Corner {
            lu: self.side_u.length(self.lu),
            lv: self.side_v.length(self.lv),
            ..self
        }
    }

    pub fn cos(self) -> f64
        ensures { result ≡ cos self }
    {
        self.u.dot(self.v)
    }

    pub fn sin(self) -> f64
        ensures { result ≡ sin self }
    {
        real::abs(cross(self.u, self.v))
    }

    // How far along each side a round cut of radius r meets it.
    pub fn setback(self, r: f64) -> f64
        ensures { result ≡ setback self r }
    {
        r * (1.0 + self.cos()) / self.sin()
    }

    pub fn radius_at_setback(self, s: f64) -> f64
        ensures { result ≡ radius_at_setback self s }
    {
        s * self.sin() / (1.0 + self.cos())
    }

    // The largest radius, its cut reaching halfway along the shorter side.
    pub fn max_radius(self) -> f64
        ensures { result ≡ max_radius self }
    {
        self.radius_at_setback(real::min(self.lu, self.lv) / 2.0)
    }

    // The largest radius where the neighbours' cuts reach `before` and `after` along the sides.
    pub fn max_radius_beside(self, before: f64, after: f64) -> f64
        ensures { result ≡ max_radius_beside self before after }
    {
        self.radius_at_setback(real::min(room(self.lu, before), room(self.lv, after)))
    }

    // The point k along the bisector, in u + v.
    pub fn on_bisector(self, k: f64) -> P
        ensures { result ≡ on_bisector self k }
    {
        self.at + (self.u + self.v) * k
    }

    // How much the radius grows when a handle on the bisector moves by d.
    pub fn radius_change(self, d: P) -> f64
        ensures { result ≡ radius_change self d }
    {
        d.dot(self.u + self.v) * self.sin() / (2.0 + 2.0 * self.cos())
    }
}

// What a neighbour's cut leaves of a side: half of it at least.
fn room(len: f64, other: f64) -> f64
    ensures { result ≡ room len other }
{
    real::max(len - real::max(other, 0.0), len / 2.0)
}
