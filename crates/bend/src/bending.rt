// The two anchors of a segment that is bent: the handles between them move, and the others may turn.
ghost use Rattle.std.specs.Prelude.{◌≡◌, ◌&&◌};
ghost use Rattle.path.specs.Anchor.{is_smooth};
ghost use Rattle.bend.specs.Bent.{pull, across, turned, bent_out, bent_in};

use geom::P;
use path::Anchor;

// How far the inner control points move so that the point at t moves by delta: it moves 3 t (1 - t) times as far as they do.
pub fn pull(t: f64, delta: P) -> P
    ensures { result ≡ pull t delta }
{
    let s = real::clamp(t, 0.08, 0.92);
    delta * (1.0 / (3.0 * s * (1.0 - s)))
}

// The handle across p from one that was moved, turned opposite to it, its length kept.
fn across(p: P, moved: P, other: P) -> P
    ensures { result ≡ across p moved other }
{
    let u = moved - p;
    if !path::beyond(u) {
        return other;
    }
    p - u * ((other - p).len() / u.len())
}

// The other handle of an anchor one of whose handles moved: it turns where a smooth anchor is to stay smooth.
// Kept: `keep` as the bool that the call is given, handed on to this one test.
fn beside(keep: bool, o: Anchor, moved: P, other: P) -> P
    ensures { result ≡ turned (keep && is_smooth o) o.p moved other }
{
    if keep && o.is_smooth() {
        across(o.p, moved, other)
    } else {
        other
    }
}

// The anchor where the segment starts.
// Kept: beside `bent_in`, since one function for both would have to be told which handle to read, and twice which to put.
pub fn bent_out(v: P, keep: bool, o: Anchor) -> Anchor
    ensures { result ≡ bent_out v keep o }
{
    let h_out = o.h_out + v;
    Anchor {
        p: o.p,
        h_in: beside(keep, o, h_out, o.h_in),
        h_out,
    }
}

// The anchor where it ends.
// Kept: beside `bent_out`, for the reason given there; `keep` is handed on to the one test in `beside`.
pub fn bent_in(v: P, keep: bool, o: Anchor) -> Anchor
    ensures { result ≡ bent_in v keep o }
{
    let h_in = o.h_in + v;
    Anchor {
        p: o.p,
        h_in,
        h_out: beside(keep, o, h_in, o.h_out),
    }
}
