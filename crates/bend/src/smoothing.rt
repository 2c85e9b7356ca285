// An anchor with smooth handles along its neighbours.
ghost use Rattle.std.specs.Prelude.{◌≡◌};
ghost use Rattle.bend.specs.Smoothed.{direction, third, smoothed};

use geom::P;
use path::Anchor;

// From the point before p to the one after it, or between p and the one that there is.
fn direction(before: Option<P>, p: P, after: Option<P>) -> P
    ensures { result ≡ direction before p after }
{
    match (before, after) {
        (Some(a), Some(b)) => b - a,
        (Some(a), None) => p - a,
        (None, Some(b)) => b - p,
        (None, None) => P::new(0.0, 0.0),
    }
}

// A third of the way to a neighbour, 0 where there is none.
fn third(way: Option<P>) -> f64
    ensures { result ≡ third way }
{
    way.map_or(0.0, |d| d.len() / 3.0)
}

// As it is where its neighbours give no direction.
pub fn smoothed(before: Option<P>, o: Anchor, after: Option<P>) -> Anchor
    ensures { result ≡ smoothed before o after }
{
    let p = o.p;
    let d = direction(before, p, after);
    if path::short(d) {
        return o;
    }
    let u = d * (1.0 / d.len());
    Anchor {
        p,
        h_in: p - u * third(before.map(|a| p - a)),
        h_out: p + u * third(after.map(|b| b - p)),
    }
}
