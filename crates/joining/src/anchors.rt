// The anchors of two paths that are joined: the drawn ones, the joint, and the rest of the target.
// Kept: counts beside lists, which are lent longer than what they hold.
ghost use Rattle.std.specs.Prelude.{◌≡◌, ◌∷◌, ◌++◌, ◌+◌, ◌-◌, ◌*◌, ◌≤◌, ◌<◌, length};
ghost use Rattle.views.specs.View.{tabulate};
ghost use Rattle.path.specs.Flat.{anchor_at, put_all, listed};
ghost use Rattle.joining.specs.Joined.{HoldsAnchors, target_at, target_rest, landed, joint_of};

use path::Anchor;

// The n anchors that are joined onto, from the start of their list or from its end.
#[derive(Clone, Copy)]
pub struct Target<'a> {
    pub anchors: &'a [f64],
    pub n: usize,
    pub at_start: bool,
}

impl<'a> Target<'a> {
    // Anchor k, from the end at which the target is joined.
    pub fn anchor(self, k: usize) -> Anchor
        requires place { k < self.n }
        requires anchors { HoldsAnchors self.anchors.now self.n }
        ensures { result ≡ target_at self.entry.anchors.now self.entry.n self.entry.at_start k }
    {
        if self.at_start {
            path::anchor_at(self.anchors, k)
        } else {
            edit::turned(path::anchor_at(self.anchors, self.n - 1 - k))
        }
    }
}

// The anchor a, with the handle in that `last` arrives with.
fn landed(last: Anchor, a: Anchor) -> Anchor
    ensures { result ≡ landed last a }
{
    Anchor {
        h_in: last.h_in + (a.p - last.p),
        ..a
    }
}

// The target's first anchor, once the last of `count` drawn ones has landed on it.
pub fn joint_of(drawn: &[f64], count: usize, first: Anchor) -> Anchor
    requires { HoldsAnchors drawn.now count }
    ensures { result ≡ joint_of drawn.now count first }
{
    if count == 0 {
        first
    } else {
        landed(path::anchor_at(drawn, count - 1), first)
    }
}

// Puts the anchors of the target after its first, from place `from` on.
fn put_rest(target: Target, from: usize, to: &mut [f64])
    requires target { (0 < target.n) × HoldsAnchors target.anchors.now target.n }
    requires room { (from ≤ 512) × ((from + (target.n - 1)) * 6 ≤ length to.old) }
    ensures { to.new ≡ put_all to.old from (target_rest target.entry.anchors.now target.entry.n target.entry.at_start) }
{
    // Kept: by index, since a proof learns only the length of what chunks_exact_mut leaves.
    for k in 0..target.n - 1 {
        path::put_anchor(to, from + k, target.anchor(k + 1));
    }
}

// Puts the drawn anchors before the joint, the joint, and the rest of the target.
pub fn put_joined(drawn: &[f64], before: usize, joint: Anchor, target: Target, to: &mut [f64])
    requires drawn { (before ≤ 511) × (before * 6 ≤ length drawn.now) }
    requires target { (0 < target.n) × HoldsAnchors target.anchors.now target.n }
    requires room { (before + target.n) * 6 ≤ length to.old }
    ensures { to.new ≡ listed (tabulate before (anchor_at drawn.now) ++ (joint ∷ target_rest target.entry.anchors.now target.entry.n target.entry.at_start)) to.old }
{
    views::copy(drawn, before * 6, to);
    path::put_anchor(to, before, joint);
    put_rest(target, before + 1, to);
}
