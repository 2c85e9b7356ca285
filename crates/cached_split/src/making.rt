// The drawing that a split makes: its anchors and radii put in place.
// Kept: n beside a list, which is lent longer than what it holds.
ghost use Rattle.std.specs.Prelude.{◌≡◌, ℕ, ◌+◌, ◌*◌, ◌≤◌, ◌<◌, length};
ghost use Rattle.views.specs.View.{entry, overwrite};
ghost use Rattle.path.specs.Flat.{anchor_at, anchor_numbers};
ghost use Rattle.path.specs.Limit.{first_bad};
ghost use Rattle.cut.specs.Near.{shifted};
ghost use Rattle.edit.specs.Split.{halves, puts_within, split_anchors, Splittable};
ghost use Rattle.session.specs.Edits.{split_radii};
ghost use Rattle.cached_split.specs.Splitting.{grown};

use cut::Sub;
use edit::Halved;

// The ends of the segment from place a to place b, and the anchor between them.
pub fn halved(anchors: &[f64], a: usize, b: usize, t: f64) -> Halved
    requires { (a * 6 + 6 ≤ length anchors.now) × (b * 6 + 6 ≤ length anchors.now) }
    ensures { result ≡ halves (anchor_at anchors.now a) (anchor_at anchors.now b) t }
{
    edit::halves(path::anchor_at(anchors, a), path::anchor_at(anchors, b), t)
}

// The first of the three anchors put, where a segment from place a to place b is split into h, that breaks the limit.
pub fn first_put(h: Halved, a: usize, b: usize) -> Option<usize>
    requires { (a < 512) × (b < 512) × (a ≡ b → ⊥) }
    ensures { (n : ℕ) → a < n → b < n → result ≡ first_bad (puts_within h a (shifted a b)) (n + 1) }
{
    edit::first_out(h, a, edit::shifted(a, b))
}

// Splits the segment from place a to place b of n anchors.
pub fn put_anchors(anchors: &mut [f64], n: usize, a: usize, b: usize, t: f64)
    requires { Splittable anchors.old n a b }
    ensures { anchors.new ≡ overwrite ((n + 1) * 6) (anchor_numbers (split_anchors (anchor_at anchors.old) a b t)) anchors.old }
{
    let h = halved(anchors, a, b, t);
    edit::put_halves(anchors, n, a, b, h);
}

// Puts radius 0 at the place after a of n radii.
pub fn put_radius(radii: &mut [f64], n: usize, a: usize)
    requires { (n < 512) × (a < n) × (n + 1 ≤ length radii.old) }
    ensures { radii.new ≡ overwrite (n + 1) (split_radii (entry radii.old) a) radii.old }
{
    edit::shift_up(radii, a, n, 1);
    radii[a + 1] = 0.0;
}

// The subpath with one anchor more.
pub fn grown(sub: Sub) -> Sub
    requires { sub.n ≤ 1024 }
    ensures { result ≡ grown sub }
{
    Sub {
        n: sub.n + 1,
        ..sub
    }
}
