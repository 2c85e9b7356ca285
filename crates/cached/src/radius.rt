// The cached edit that sets a radius: 7, 5, 6, 9.
// Kept: anchors and radii, numbers and flags by themselves, as the C interface lends them.
ghost use Rattle.session.specs.Edits.{set_radius};
ghost use Rattle.cached.specs.Opening.{lent};
ghost use Rattle.cached.specs.Doing.{Does};

use crate::opening::sub_at;
use crate::planning::{AnchorEdit, plan_edit};
use cut::Window;
use path::AnchorRef;
use recutting::write_places;
use refusal::Refusal;
use session::Edited;

// A new radius for an anchor; the places within two steps are recut.
pub fn set_radius(
    shapes: &[u32],
    anchors: &[f64],
    radii: &mut [f64],
    kind: u32,
    numbers: &mut [f64],
    flags: &mut [u32],
    at: AnchorRef,
    radius: f64,
) -> Result<Edited, Refusal>
    ensures { Does (lent shapes.now anchors.now radii.old numbers.old flags.old) kind (set_radius at.subpath at.anchor radius) result (lent shapes.now anchors.now radii.new numbers.new flags.new) }
{
    let e = AnchorEdit::Radius(radius);
    let plan = plan_edit(shapes, anchors, radii, kind, numbers, flags, at, e)?;
    let sub = sub_at(shapes, at.subpath);
    let w = Window {
        at: at.anchor,
        reach: e.reach(),
    };
    radii[sub.first + at.anchor] = radius;
    write_places(
        sub,
        w,
        plan.from,
        &plan.numbers,
        &plan.flags,
        numbers,
        flags,
    );
    Ok(Edited {
        recut: plan.count,
        anchors: plan.total,
    })
}
