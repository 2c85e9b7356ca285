// The cut of the indices of a subpath that are within reach of one.
ghost use Rattle.std.specs.Prelude.{◌≡◌, ◌+◌, ◌*◌, ◌≤◌, length};
ghost use Rattle.views.specs.View.{entry};
ghost use Rattle.path.specs.Flat.{anchor_at};
ghost use Rattle.cut.specs.Subpath.{Fits, Inside, view_of};
ghost use Rattle.cut.specs.Near.{near_count};
ghost use Rattle.cut.specs.Recut.{recut_numbers, recut_flags};

use crate::corners::find_corners;
use crate::cuts::make_cuts;
use corner::{CornerKind, Cut};
use cut::{Row, Sub, Window};
use places::lay_places;

// Writes each place within reach, and its flag, to the lists of the path's places. The answer is how many. What `rows` and `cuts` are
// lent for ends with the call.
// Kept: each list by itself, as the passes are lent them, and as the C interface has numbers and flags.
pub fn recut(
    anchors: &[f64],
    radii: &[f64],
    kind: CornerKind,
    sub: Sub,
    w: Window,
    rows: &mut [Option<Row>],
    cuts: &mut [Option<Cut>],
    numbers: &mut [f64],
    flags: &mut [u32],
) -> usize
    requires fits { Fits sub (length anchors.now) × Inside sub w × (sub.first + sub.n ≤ length radii.now) }
    requires n_in_bounds { (sub.n ≤ length rows.old) × (sub.n ≤ length cuts.old) }
    requires n_in_bounds_2 { ((sub.first + sub.n) * 12 ≤ length numbers.old) × (sub.first + sub.n ≤ length flags.old) }
    ensures count { result ≡ near_count w.reach sub.n sub.closed w.at }
    ensures rows { length rows.new ≡ length rows.old }
    ensures cuts { length cuts.new ≡ length cuts.old }
    ensures numbers { numbers.new ≡ recut_numbers (view_of (anchor_at anchors.now) (entry radii.now) (λ k. kind) 128 sub) sub.first w.reach w.at numbers.old }
    ensures flags { flags.new ≡ recut_flags (view_of (anchor_at anchors.now) (entry radii.now) (λ k. kind) 128 sub) sub.first w.reach w.at flags.old }
{
    find_corners(anchors, radii, sub, w, rows);
    make_cuts(anchors, radii, kind, sub, w, rows, cuts);
    lay_places(anchors, sub, w, cuts, numbers, flags)
}
