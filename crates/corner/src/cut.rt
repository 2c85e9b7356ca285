// `Cut`: how a corner is cut.
ghost use Rattle.std.specs.Prelude.{◌≡◌};
ghost use Rattle.side.specs.Side.{Serves};
ghost use Rattle.corner.specs.Corner.{with_lengths};
ghost use Rattle.corner.specs.Cut.{straight_sides, cross_ahead, tangent_handles, round_handles, rounded, inverted, handles, cut};

use crate::corner::Corner;
use crate::kind::CornerKind;
use arc::{arc_handle, square_to};
use geom::{P, cross};
use side::{At, is_straight_side};

// Where a cut meets the sides, as parameters and as points, and the handles between them.
#[derive(Clone, Copy, Debug, PartialEq)]
pub struct Cut {
    pub tu: f64,
    pub tv: f64,
    pub start: P,
    pub h_out: P,
    pub h_in: P,
    pub end: P,
}

// The handles of a cut, out of its start and into its end.
#[derive(Clone, Copy, Debug, PartialEq)]
pub struct Handles {
    pub h_out: P,
    pub h_in: P,
}

// The lengths of a round cut's handles.
#[derive(Clone, Copy, Debug, PartialEq)]
pub struct Lengths {
    pub hu: f64,
    pub hv: f64,
}

impl Corner {
    // The cut of this radius: where it meets the sides, by their tables, and its handles.
    pub fn cut(
        self,
        radius: f64,
        kind: CornerKind,
        table_u: &[f64; 129],
        table_v: &[f64; 129],
    ) -> Cut
        requires { (with_lengths 128 self ≡ self) × Serves 128 table_u.now self.side_u × Serves 128 table_v.now self.side_v }
        ensures { result ≡ cut 128 self radius kind }
    {
        let s = self.setback(radius);
        let a = self.side_u.at_length(s, self.u, self.lu, table_u);
        let b = self.side_v.at_length(s, self.v, self.lv, table_v);
        let h = self.handles(radius, kind, s, a, b);
        Cut {
            tu: a.t,
            tv: b.t,
            start: a.p,
            h_out: h.h_out,
            h_in: h.h_in,
            end: b.p,
        }
    }

    // The handles of a cut that meets the sides at a and b, s along them.
    fn handles(self, radius: f64, kind: CornerKind, s: f64, a: At, b: At) -> Handles
        ensures { result ≡ handles kind self radius s a b }
    {
        match kind {
            CornerKind::Round => self.rounded(radius, a, b),
            CornerKind::Inverted => inverted(s, a, b),
            CornerKind::Chamfer => Handles {
                h_out: a.p,
                h_in: b.p,
            },
        }
    }

    // Those of a round cut.
    fn rounded(self, radius: f64, a: At, b: At) -> Handles
        ensures { result ≡ rounded self radius a b }
    {
        let h = self.round_handles(radius, a, b);
        Handles {
            h_out: a.p - a.dir * h.hu,
            h_in: b.p - b.dir * h.hv,
        }
    }

    // Their lengths. Between straight sides the arc's; a curved side has turned by the time the cut meets it.
    fn round_handles(self, radius: f64, a: At, b: At) -> Lengths
        ensures { result ≡ round_handles self radius a b }
    {
        if self.straight_sides() {
            let h = radius * arc_handle(-a.dir.dot(b.dir));
            return Lengths { hu: h, hv: h };
        }
        tangent_handles(a, b)
    }

    // Whether both sides are straight.
    fn straight_sides(self) -> bool
        ensures { result ≡ straight_sides self }
    {
        is_straight_side(self.side_u.c) && is_straight_side(self.side_v.c)
    }
}

// The handles of an inverted cut.
fn inverted(s: f64, a: At, b: At) -> Handles
    ensures { result ≡ inverted s a b }
{
    let h = s * arc_handle(a.dir.dot(b.dir));
    Handles {
        h_out: a.p + square_to(a.dir, b.dir) * h,
        h_in: b.p + square_to(b.dir, a.dir) * h,
    }
}

// Each handle is the share that an arc takes of its tangent up to where the tangents cross, or a third of the chord.
fn tangent_handles(a: At, b: At) -> Lengths
    ensures { result ≡ tangent_handles a b }
{
    let cos = a.dir.dot(b.dir);
    let cr = cross(a.dir, b.dir);
    let w = a.p - b.p;
    let x = cross(w, b.dir) / cr;
    let y = cross(w, a.dir) / cr;
    if cross_ahead(cr, x, y) {
        let share = arc_handle(-cos) * (1.0 - cos) / real::abs(cr);
        return Lengths {
            hu: x * share,
            hv: y * share,
        };
    }
    let third = a.p.dist(b.p) / 3.0;
    Lengths {
        hu: third,
        hv: third,
    }
}

// Whether two tangents cross, ahead of both points: x and y along them, where the directions' cross product is cr.
fn cross_ahead(cr: f64, x: f64, y: f64) -> bool
    ensures { result ≡ cross_ahead cr x y }
{
    1e-6 < real::abs(cr) && 1e-9 < x && 1e-9 < y && real::is_finite(x) && real::is_finite(y)
}
