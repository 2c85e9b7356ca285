// The anchors of each shape.
ghost use Rattle.std.specs.Prelude.{◌≡◌};
ghost use Rattle.shape.specs.Outlines.{fitted_radius, sharp, beside, rounded, through, ellipse_anchors, line_anchors};

use geom::P;
use path::Anchor;

// A quarter circle of radius 1 drawn with one cubic has handles of this length.
const KAPPA: f64 = 0.5522847498;

// A radius that fits the box: not negative, and at most half of either side.
pub fn fitted_radius(lo: P, hi: P, radius: f64) -> f64
    ensures { result ≡ fitted_radius lo hi radius }
{
    real::min(
        real::min(real::max(radius, 0.0), (hi.x - lo.x) / 2.0),
        (hi.y - lo.y) / 2.0,
    )
}

// A rectangle with sharp corners.
pub fn sharp(lo: P, hi: P) -> [Anchor; 4]
    ensures { result ≡ sharp lo hi }
{
    [
        Anchor::corner(lo),
        Anchor::corner(P::new(hi.x, lo.y)),
        Anchor::corner(hi),
        Anchor::corner(P::new(lo.x, hi.y)),
    ]
}

// An anchor and the vectors to its handles. The zero vector is added too: -0 becomes 0, as in 000.
fn beside(p: P, h_in: P, h_out: P) -> Anchor
    ensures { result ≡ beside p h_in h_out }
{
    Anchor {
        p,
        h_in: p + h_in,
        h_out: p + h_out,
    }
}

// A rectangle with rounded corners, each of two anchors and the curve between them, from its top on clockwise, where y points down.
pub fn rounded(lo: P, hi: P, r: f64) -> [Anchor; 8]
    ensures { result ≡ rounded lo hi r }
{
    let k = r * KAPPA;
    let none = P::new(0.0, 0.0);
    let left = P::new(-k, 0.0);
    let right = P::new(k, 0.0);
    let up = P::new(0.0, -k);
    let down = P::new(0.0, k);
    let west = lo.x + r;
    let east = hi.x - r;
    let high = lo.y + r;
    let low = hi.y - r;
    [
        beside(P::new(west, lo.y), left, none),
        beside(P::new(east, lo.y), none, right),
        beside(P::new(hi.x, high), up, none),
        beside(P::new(hi.x, low), none, down),
        beside(P::new(east, hi.y), right, none),
        beside(P::new(west, hi.y), none, left),
        beside(P::new(lo.x, low), down, none),
        beside(P::new(lo.x, high), none, up),
    ]
}

// A smooth anchor, d the vector to its handle out.
fn through(p: P, d: P) -> Anchor
    ensures { result ≡ through p d }
{
    Anchor {
        p,
        h_in: p - d,
        h_out: p + d,
    }
}

// The ellipse that fills the box between a and b, from its top on clockwise, where y points down.
pub fn ellipse_between(a: P, b: P) -> [Anchor; 4]
    ensures { result ≡ ellipse_anchors a b }
{
    let c = (a + b) * 0.5;
    let rx = real::abs(b.x - a.x) / 2.0;
    let ry = real::abs(b.y - a.y) / 2.0;
    let kx = rx * KAPPA;
    let ky = ry * KAPPA;
    [
        through(P::new(c.x, c.y - ry), P::new(kx, 0.0)),
        through(P::new(c.x + rx, c.y), P::new(0.0, ky)),
        through(P::new(c.x, c.y + ry), P::new(-kx, 0.0)),
        through(P::new(c.x - rx, c.y), P::new(0.0, -ky)),
    ]
}

pub fn line_between(a: P, b: P) -> [Anchor; 2]
    ensures { result ≡ line_anchors a b }
{
    [Anchor::corner(a), Anchor::corner(b)]
}
