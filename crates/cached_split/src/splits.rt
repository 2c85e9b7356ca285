// The cached edit that splits a segment: 7, 5, 6, 10, 9, 8.
// Kept: anchors and radii, numbers and flags by themselves, as the C interface lends them.
ghost use Rattle.session.specs.Edits.{split};
ghost use Rattle.cached.specs.Opening.{lent};
ghost use Rattle.cached.specs.Doing.{Does};

use crate::making::grown;
use crate::planning::plan_split;
use crate::writing::{shift_cache, write_drawing};
use cached::sub_at;
use cut::Window;
use path::AnchorRef;
use recutting::write_places;
use refusal::Refusal;
use session::Edited;

// The segment that starts at an anchor cut in two, at t; the places within four steps of the new anchor are recut.
pub fn split_segment(
    shapes: &mut [u32],
    anchors: &mut [f64],
    radii: &mut [f64],
    kind: u32,
    numbers: &mut [f64],
    flags: &mut [u32],
    at: AnchorRef,
    t: f64,
) -> Result<Edited, Refusal>
    ensures { Does (lent shapes.old anchors.old radii.old numbers.old flags.old) kind (split at.subpath at.anchor t) result (lent shapes.new anchors.new radii.new numbers.new flags.new) }
{
    let plan = plan_split(shapes, anchors, radii, kind, numbers, flags, at, t)?;
    let sub = sub_at(shapes, at.subpath);
    let n = plan.total - 1;
    let w = Window {
        at: at.anchor + 1,
        reach: 4,
    };
    let from = sub.first + at.anchor;
    let to = sub.first + path::next(sub.n, at.anchor);
    write_drawing(shapes, anchors, radii, at.subpath, from, to, n, t);
    shift_cache(numbers, flags, from, n);
    write_places(
        grown(sub),
        w,
        plan.from,
        &plan.numbers,
        &plan.flags,
        numbers,
        flags,
    );
    Ok(Edited {
        recut: plan.count,
        anchors: plan.total,
    })
}
