// The edits of one anchor decided on lists that are only read: 7, 5, 6, 9.
// Kept: anchors and radii, numbers and flags by themselves, as the C interface lends them.
ghost use Rattle.std.specs.Prelude.{◌≡◌};
ghost use Rattle.cached.specs.Opening.{lent};
ghost use Rattle.cached.specs.Planning.{numbers_in, reach_of, anchor_then, radius_then, anchor_call, Planned};

use crate::opening::{open_edit, sub_at};
use cut::Window;
use path::{Anchor, AnchorRef};
use recutting::{Plan, plan_put};
use refusal::{Reason, Refusal};

// Six new numbers, or a new radius.
#[derive(Clone, Copy)]
pub enum AnchorEdit {
    Move(Anchor),
    Radius(f64),
}

impl AnchorEdit {
    // Whether its own numbers are within the limit.
    fn in_limit(self) -> bool
        ensures { result ≡ numbers_in self }
    {
        match self {
            AnchorEdit::Move(new) => new.in_limit(),
            AnchorEdit::Radius(radius) => real::in_limit(radius),
        }
    }

    // How many steps away from the anchor the cut turns on it.
    pub fn reach(self) -> usize
        ensures { result ≡ reach_of self }
    {
        match self {
            AnchorEdit::Move(_) => 3,
            AnchorEdit::Radius(_) => 2,
        }
    }

    // What stands at the anchor once it is done.
    fn anchor(self, old: Anchor) -> Anchor
        ensures { result ≡ anchor_then self old }
    {
        match self {
            AnchorEdit::Move(new) => new,
            AnchorEdit::Radius(_) => old,
        }
    }

    fn radius(self, old: f64) -> f64
        ensures { result ≡ radius_then self old }
    {
        match self {
            AnchorEdit::Move(_) => old,
            AnchorEdit::Radius(new) => new,
        }
    }
}

// Decides whether the anchor may be edited so, and recuts the places within reach.
// Kept: the kind by its number, since `open_edit` refuses one that is not known only after other tests.
pub fn plan_edit(
    shapes: &[u32],
    anchors: &[f64],
    radii: &[f64],
    kind: u32,
    numbers: &[f64],
    flags: &[u32],
    at: AnchorRef,
    e: AnchorEdit,
) -> Result<Plan, Refusal>
    ensures { Planned (lent shapes.now anchors.now radii.now numbers.now flags.now) kind (anchor_call at e) at.subpath at.anchor (reach_of e) result }
{
    let ready = open_edit(shapes, anchors, radii, kind, numbers, flags, e.in_limit())?;
    if !path::has_anchor(shapes, at.subpath, at.anchor) {
        return Err(Reason::Reference.at(0));
    }
    let sub = sub_at(shapes, at.subpath);
    let k = sub.first + at.anchor;
    let w = Window {
        at: at.anchor,
        reach: e.reach(),
    };
    let new = e.anchor(path::anchor_at(anchors, k));
    let radius = e.radius(radii[k]);
    plan_put(
        anchors,
        radii,
        ready.kind,
        sub,
        w,
        new,
        radius,
        ready.anchors,
    )
}
