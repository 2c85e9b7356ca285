// The split of a segment decided on lists that are only read: 7, 5, 6, 10, 9, 8.
// Kept: anchors and radii, numbers and flags by themselves, as the C interface lends them.
ghost use Rattle.std.specs.Prelude.{◌≡◌, IfOk, true, ◌||◌, ◌+◌, ◌*◌, ◌≤◌, ◌<◌, ltb, length};
ghost use Rattle.cut.specs.View.{View};
ghost use Rattle.recutting.specs.Stretch.{Decides};
ghost use Rattle.cached.specs.Opening.{lent};
ghost use Rattle.cached_split.specs.Splitting.{Begun, grown};
ghost use Rattle.cached_split.specs.Planning.{Halving, SplitPlanned};

use crate::making::{first_put, grown, halved};
use crate::writing::has_room;
use cached::{Ready, has_segment, open_edit, sub_at};
use corner::CornerKind;
use cut::{Sub, Window};
use edit::Halved;
use path::AnchorRef;
use recutting::{Plan, gather, plan_recut, rolled, stretch_of};
use refusal::{Reason, Refusal};

// The plan of a subpath with an anchor put in after index a: the three of the segment split are put in its stretch.
fn plan_halves(
    anchors: &[f64],
    radii: &[f64],
    kind: CornerKind,
    sub: Sub,
    a: usize,
    h: Halved,
    total: usize,
) -> Result<Plan, Refusal>
    requires n_bound { (sub.first + sub.n < 1024) × (a < sub.n) × ((sub.closed || ltb (a + 1 + 1) (sub.n + 1)) ≡ true) }
    requires n_in_bounds { ((sub.first + sub.n) * 6 ≤ length anchors.now) × (sub.first + sub.n ≤ length radii.now) }
    ensures { IfOk result (λ p. p.total ≡ total) × ((v : View) → Halving v kind sub a h anchors.now radii.now → Decides v (grown sub) (record { at = a + 1; reach = 4 }) result) }
{
    let more = grown(sub);
    let w = Window {
        at: a + 1,
        reach: 4,
    };
    let s = stretch_of(more, w);
    let start = rolled(more.n, s.from, a);
    let end = rolled(more.n, s.from, path::next(more.n, w.at));
    let mut g = gather(anchors, radii, more, s, a);
    path::put_anchor(&mut g.anchors, start, h.left);
    path::put_anchor(&mut g.anchors, s.mid, h.middle);
    path::put_anchor(&mut g.anchors, end, h.right);
    g.radii[s.mid] = 0.0;
    plan_recut(&g.anchors, &g.radii, kind, more, w, s, total)
}

// What 7 and 5 leave, and the number of the kind.
// Kept: the number beside the kind, since the contracts name it.
#[derive(Clone, Copy)]
struct Tested {
    kind: u32,
    ready: Ready,
}

// Of a segment that is there, with room for one anchor more: 9, 8.
fn plan_begun(
    shapes: &[u32],
    anchors: &[f64],
    radii: &[f64],
    numbers: &[f64],
    flags: &[u32],
    at: AnchorRef,
    t: f64,
    d: Tested,
) -> Result<Plan, Refusal>
    requires { Begun (lent shapes.now anchors.now radii.now numbers.now flags.now) d.kind at.subpath at.anchor t d.ready }
    ensures { SplitPlanned (lent shapes.now anchors.now radii.now numbers.now flags.now) d.kind at.subpath at.anchor t result }
{
    let sub = sub_at(shapes, at.subpath);
    let from = sub.first + at.anchor;
    let to = sub.first + path::next(sub.n, at.anchor);
    let h = halved(anchors, from, to, t);
    if let Some(k) = first_put(h, from, to) {
        return Err(Reason::Made.at(k));
    }
    let more = d.ready.anchors + 1;
    let plan = plan_halves(anchors, radii, d.ready.kind, sub, at.anchor, h, more)?;
    if !has_room(anchors, radii, numbers, flags, more) {
        return Err(Reason::Output.at(0));
    }
    Ok(plan)
}

// Decides whether the segment that starts at an anchor may be split at t, and recuts the places within four steps of the new anchor.
// Kept: the kind by its number, since `open_edit` refuses one that is not known only after other tests.
pub fn plan_split(
    shapes: &[u32],
    anchors: &[f64],
    radii: &[f64],
    kind: u32,
    numbers: &[f64],
    flags: &[u32],
    at: AnchorRef,
    t: f64,
) -> Result<Plan, Refusal>
    ensures { SplitPlanned (lent shapes.now anchors.now radii.now numbers.now flags.now) kind at.subpath at.anchor t result }
{
    let ready = open_edit(
        shapes,
        anchors,
        radii,
        kind,
        numbers,
        flags,
        real::in_limit(t),
    )?;
    if !has_segment(shapes, at.subpath, at.anchor) {
        return Err(Reason::Reference.at(0));
    }
    if ready.anchors >= 512 {
        return Err(Reason::Capacity.at(0));
    }
    plan_begun(
        shapes,
        anchors,
        radii,
        numbers,
        flags,
        at,
        t,
        Tested { kind, ready },
    )
}
