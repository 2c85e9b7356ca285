// `cut_corners`, with its refusals: 7, 5, 9 at the index in the cut outline, 8.
// Kept: anchors and radii by themselves, as the C interface lends them.
ghost use Rattle.std.specs.Prelude.{◌≡◌, ◌*◌, ◌≤◌, length};
ghost use Rattle.path.specs.Shape.{total};
ghost use Rattle.cut_calls.specs.PlainCut.{view_at, cut_up_to, cut_shape};
ghost use Rattle.cut_calls.specs.Made.{made_answer, made_shapes, made_anchors};
ghost use Rattle.cut_corners.specs.Calls.{cut_answer, cut_shapes_left, cut_anchors_left};

use call::Outline;
use corner::CornerKind;
use cut_calls::{hand_over, lay_drawing};
use refusal::{Reason, Refusal};

// The drawing's path with its corners cut, each radius fitted, every corner in one way.
pub fn cut_corners(
    shapes: &[u32],
    anchors: &[f64],
    radii: &[f64],
    kind: u32,
    to_shapes: &mut [u32],
    to: &mut [f64],
) -> Result<Outline, Refusal>
    ensures answer { result ≡ cut_answer shapes.now anchors.now radii.now kind to_shapes.old to.old }
    ensures shapes { to_shapes.new ≡ cut_shapes_left shapes.now anchors.now radii.now kind to_shapes.old to.old }
    ensures anchors { to.new ≡ cut_anchors_left shapes.now anchors.now radii.now kind to_shapes.old to.old }
{
    let n = call::open_drawing(shapes, anchors, radii)?;
    let Ok(kind) = CornerKind::try_from(kind) else {
        return Err(Reason::Arguments.at(n));
    };
    // Clearing the larger scratch would take longer than the cut.
    if n <= 32 {
        cut_within::<32, 384>(shapes, anchors, radii, kind, to_shapes, to)
    } else {
        cut_within::<512, 6144>(shapes, anchors, radii, kind, to_shapes, to)
    }
}

// With scratch for so many anchors, and for twelve numbers each.
fn cut_within<const ANCHORS: usize, const NUMBERS: usize>(
    shapes: &[u32],
    anchors: &[f64],
    radii: &[f64],
    kind: CornerKind,
    to_shapes: &mut [u32],
    to: &mut [f64],
) -> Result<Outline, Refusal>
    requires drawing { (length shapes.now ≤ 32) × (total shapes.now ≤ 512) × (total shapes.now * 6 ≤ length anchors.now) × (total shapes.now ≤ length radii.now) }
    requires scratch { (total shapes.now ≤ ANCHORS) × (ANCHORS * 12 ≤ NUMBERS) × (NUMBERS ≤ 6144) }
    ensures answer { result ≡ made_answer (length shapes.now) (cut_up_to (view_at shapes.now anchors.now radii.now kind) (length shapes.now)) to_shapes.old to.old }
    ensures shapes { to_shapes.new ≡ made_shapes (length shapes.now) (cut_up_to (view_at shapes.now anchors.now radii.now kind) (length shapes.now)) (cut_shape (view_at shapes.now anchors.now radii.now kind)) to_shapes.old to.old }
    ensures anchors { to.new ≡ made_anchors (length shapes.now) (cut_up_to (view_at shapes.now anchors.now radii.now kind) (length shapes.now)) to_shapes.old to.old }
{
    let mut rows = [None; ANCHORS];
    let mut cuts = [None; ANCHORS];
    let mut numbers = [0.0f64; NUMBERS];
    let mut flags = [0u32; ANCHORS];
    let mut made = [0.0f64; NUMBERS];
    lay_drawing(
        shapes,
        anchors,
        radii,
        kind,
        &mut rows,
        &mut cuts,
        &mut numbers,
        &mut flags,
    );
    hand_over(shapes, &numbers, &flags, &mut made, to_shapes, to)
}
