// The cached edit that moves an anchor: 7, 5, 6, 9.
// Kept: anchors and radii, numbers and flags by themselves, as the C interface lends them.
ghost use Rattle.session.specs.Edits.{move};
ghost use Rattle.cached.specs.Opening.{lent};
ghost use Rattle.cached.specs.Doing.{Does};

use crate::opening::sub_at;
use crate::planning::{AnchorEdit, plan_edit};
use cut::Window;
use path::{Anchor, AnchorRef};
use recutting::write_places;
use refusal::Refusal;
use session::Edited;

// Six new numbers for an anchor; the places within three steps are recut.
// Kept: beside `set_radius`, which writes another list; one function for what is left would be lent as many.
pub fn move_anchor(
    shapes: &[u32],
    anchors: &mut [f64],
    radii: &[f64],
    kind: u32,
    numbers: &mut [f64],
    flags: &mut [u32],
    at: AnchorRef,
    new: Anchor,
) -> Result<Edited, Refusal>
    ensures { Does (lent shapes.now anchors.old radii.now numbers.old flags.old) kind (move at.subpath at.anchor new) result (lent shapes.now anchors.new radii.now numbers.new flags.new) }
{
    let e = AnchorEdit::Move(new);
    let plan = plan_edit(shapes, anchors, radii, kind, numbers, flags, at, e)?;
    let sub = sub_at(shapes, at.subpath);
    let w = Window {
        at: at.anchor,
        reach: e.reach(),
    };
    path::put_anchor(anchors, sub.first + at.anchor, new);
    write_places(
        sub,
        w,
        plan.from,
        &plan.numbers,
        &plan.flags,
        numbers,
        flags,
    );
    Ok(Edited {
        recut: plan.count,
        anchors: plan.total,
    })
}
