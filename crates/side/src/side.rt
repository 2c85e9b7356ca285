// `Side`: a side of a corner, the segment from the corner to its neighbour, as a cubic leaving the corner.
ghost use Rattle.std.specs.Prelude.{◌≡◌, length, option_map};
ghost use Rattle.geom.specs.Point.{dist};
ghost use Rattle.geom.specs.Flat.{pt};
ghost use Rattle.side.specs.Side.{is_straight_side, unit, side_of, direction, length_of, long_enough, OnLine, Serves, at_line, at_length};

use crate::table::{arclen_table, at_curve, curve_length, first_chords};
use geom::P;

#[derive(Clone, Copy, Debug, PartialEq)]
pub struct Side {
    pub c: [P; 4],
}

// The unit direction in which a side leaves its corner, and how far off the point is that it was found by: on a straight side that is the
// side's length.
#[derive(Clone, Copy, Debug, PartialEq)]
pub struct Heading {
    pub along: P,
    pub far: f64,
}

// A length along a side: the parameter, the point there, and the direction in which the side runs on.
#[derive(Clone, Copy, Debug, PartialEq)]
pub struct At {
    pub t: f64,
    pub p: P,
    pub dir: P,
}

// Both handles within 1e-9 of their ends.
pub fn is_straight_side(c: [P; 4]) -> bool
    ensures { result ≡ is_straight_side c }
{
    path::within(c[1] - c[0]) && path::within(c[2] - c[3])
}

// d made unit.
pub fn unit(d: P) -> P
    ensures { result ≡ unit d }
{
    d * (1.0 / d.len())
}

impl Side {
    // The side with these control points, from the corner on.
    pub fn of(a: P, b: P, c: P, d: P) -> Side
        ensures { result ≡ side_of a b c d }
    {
        Side { c: [a, b, c, d] }
    }

    // Towards the first of c1, c2, c3 that is farther than 1e-9 from c0.
    pub fn direction(self) -> Option<Heading>
        ensures { option_map (λ h. h.along) result ≡ direction self }
    {
        let [start, b, c, d] = self.c;
        for end in [b, c, d] {
            let d = end - start;
            if path::beyond(d) {
                let far = d.len();
                let along = d * (1.0 / far);
                return Some(Heading { along, far });
            }
        }
        None
    }

    // The distance of the ends where the side is straight, which `hint` may be, else the sum of 128 chords.
    pub fn length(self, hint: f64) -> f64
        ensures { result ≡ length_of 128 self }
    {
        let c = self.c;
        if is_straight_side(c) {
            return c[0].dist_near(c[3], hint);
        }
        curve_length(c)
    }

    // A number that is above 1e-9 and finite where the side's length is: on a straight side the length, which `hint` may be, on a curve
    // in limit what its first chords add up to.
    pub fn reach(self, hint: f64) -> f64
        ensures long { long_enough result ≡ long_enough (length_of 128 self) }
        ensures line { OnLine 128 self result }
    {
        let c = self.c;
        if is_straight_side(c) {
            return c[0].dist_near(c[3], hint);
        }
        if cubic::curve_in_limit(c) {
            return first_chords(c);
        }
        curve_length(c)
    }

    // The length, which `reach` has on a straight side; on a curve, from the table of its sums, which is left for `at_length`.
    pub fn measure(self, reach: f64, table: &mut [f64]) -> f64
        requires { length table.old ≡ 129 }
        ensures length { OnLine 128 self reach → result ≡ length_of 128 self }
        ensures table { Serves 128 table.new self }
    {
        let c = self.c;
        if is_straight_side(c) {
            return reach;
        }
        arclen_table(c, table);
        table[128]
    }

    // The place s along the side from the corner; u is the direction in which the side leaves, and len its length.
    pub fn at_length(self, s: f64, u: P, len: f64, table: &[f64; 129]) -> At
        requires { OnLine 128 self len × Serves 128 table.now self }
        ensures { result ≡ at_length 128 self s u }
    {
        let c = self.c;
        if is_straight_side(c) {
            return at_line(c, s, u, len);
        }
        at_curve(c, s, u, table)
    }
}

// The same on a straight side.
fn at_line(c: [P; 4], s: f64, u: P, len: f64) -> At
    requires { len ≡ dist (pt c 0) (pt c 3) }
    ensures { result ≡ at_line c s u }
{
    let t = if 1e-9 < len {
        real::clamp(s / len, 0.0, 1.0)
    } else {
        0.0
    };
    At {
        t,
        p: c[0] + u * s,
        dir: u,
    }
}
