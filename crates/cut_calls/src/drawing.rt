// Every place of a drawing: the cut of each subpath, whole.
// Kept: anchors and radii, numbers and flags by themselves, as the C interface lends them.
ghost use Rattle.std.specs.Prelude.{◌≡◌, ◌*◌, ◌≤◌, length};
ghost use Rattle.path.specs.Shape.{total};
ghost use Rattle.cut_calls.specs.PlainCut.{Laid, view_at};

use corner::{CornerKind, Cut};
use cut::{Row, Sub, Window};

// Lays the twelve numbers and the flag of every place. `rows` and `cuts` are scratch.
pub fn lay_drawing(
    shapes: &[u32],
    anchors: &[f64],
    radii: &[f64],
    kind: CornerKind,
    rows: &mut [Option<Row>],
    cuts: &mut [Option<Cut>],
    numbers: &mut [f64],
    flags: &mut [u32],
)
    requires shapes_len_bound { (length shapes.now ≤ 32) × (total shapes.now ≤ 512) × (total shapes.now * 6 ≤ length anchors.now) × (total shapes.now ≤ length radii.now) }
    requires shapes_in_bounds { (total shapes.now ≤ length rows.old) × (total shapes.now ≤ length cuts.old) }
    requires shapes_in_bounds_2 { (total shapes.now * 12 ≤ length numbers.old) × (total shapes.now ≤ length flags.old) }
    ensures numbers_kept { length numbers.new ≡ length numbers.old }
    ensures flags_kept { length flags.new ≡ length flags.old }
    ensures laid { Laid shapes.now (view_at shapes.now anchors.now radii.now kind) numbers.new flags.new }
{
    let mut first: usize = 0;
    for word in shapes {
        let n = path::count_of(*word);
        let sub = Sub {
            first,
            n,
            closed: path::closed_of(*word),
        };
        let w = Window { at: 0, reach: n };
        passes::recut(anchors, radii, kind, sub, w, rows, cuts, numbers, flags);
        first += n;
    }
}
