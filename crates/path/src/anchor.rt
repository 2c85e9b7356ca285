// `Anchor`: a point of a path and its two handles, each equal to the point where there is none on that side.
ghost use Rattle.std.specs.Prelude.{◌≡◌};
ghost use Rattle.path.specs.Anchor.{without_handles, has_handles, is_smooth, segment};
ghost use Rattle.path.specs.Limit.{anchor_good};

use crate::distance::short;
use geom::{P, cross};

#[derive(Clone, Copy, Debug, PartialEq)]
pub struct Anchor {
    pub p: P,
    pub h_in: P,
    pub h_out: P,
}

impl Anchor {
    pub fn corner(p: P) -> Anchor
        ensures { result ≡ without_handles p }
    {
        Anchor {
            p,
            h_in: p,
            h_out: p,
        }
    }

    // Whether each of its six numbers is within the limit.
    pub fn in_limit(self) -> bool
        ensures { result ≡ anchor_good self }
    {
        self.p.in_limit() && self.h_in.in_limit() && self.h_out.in_limit()
    }

    pub fn has_handles(self) -> bool
        ensures { result ≡ has_handles self }
    {
        self.h_in != self.p || self.h_out != self.p
    }

    // Both handles on one line through the anchor, on either side of it.
    pub fn is_smooth(self) -> bool
        ensures { result ≡ is_smooth self }
    {
        let a = self.h_in - self.p;
        let b = self.h_out - self.p;
        if short(a) || short(b) {
            return false;
        }
        real::abs(cross(a, b) / (a.len() * b.len())) < 1e-3 && a.dot(b) < 0.0
    }

    // The cubic of the segment from this anchor to the next.
    pub fn cubic(self, to: Anchor) -> [P; 4]
        ensures { result ≡ segment self to }
    {
        [self.p, self.h_out, to.h_in, to.p]
    }
}
