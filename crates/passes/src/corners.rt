// The first pass: the corners within two steps more than the reach.
ghost use Rattle.std.specs.Prelude.{◌≡◌, true, ℕ, ◌+◌, ◌≤◌, ◌<◌, Some, Float, length};
ghost use Rattle.views.specs.View.{entry};
ghost use Rattle.path.specs.Flat.{anchor_at};
ghost use Rattle.corner.specs.declared.kind.CornerKind.{CornerKind};
ghost use Rattle.cut.specs.Subpath.{Fits, Inside, view_of};
ghost use Rattle.cut.specs.Places.{corner_at};
ghost use Rattle.side.specs.Side.{Serves};
ghost use Rattle.cut.specs.Rows.{row_of, RowHeld, HoldsRows};

use corner::Corner;
use cut::{Row, Sub, Window, corner_at, near, span};
use side::Side;

// The row of a corner where this radius is set: a negative one counts as 0.
fn row_of(c: Corner, radius: f64) -> Row
    ensures { result ≡ row_of c radius }
{
    Row {
        u: c.u,
        v: c.v,
        lu: c.lu,
        lv: c.lv,
        asked: c.setback(real::max(radius, 0.0)),
    }
}

// The row at index i, if there is a corner.
fn row_at(anchors: &[f64], radii: &[f64], sub: Sub, i: usize) -> Option<Row>
    requires { Fits sub (length anchors.now) × (i < sub.n) × (sub.first + sub.n ≤ length radii.now) }
    ensures { (kind : ℕ → CornerKind) → RowHeld (view_of (anchor_at anchors.now) (entry radii.now) kind 128 sub) i result }
{
    let c = corner_at(anchors, sub, i)?;
    Some(row_of(c, radii[sub.first + i]))
}

pub fn find_corners(anchors: &[f64], radii: &[f64], sub: Sub, w: Window, rows: &mut [Option<Row>])
    requires { Fits sub (length anchors.now) × Inside sub w × (sub.first + sub.n ≤ length radii.now) × (sub.n ≤ length rows.old) }
    ensures kept { length rows.new ≡ length rows.old }
    ensures rows { (kind : ℕ → CornerKind) → HoldsRows (view_of (anchor_at anchors.now) (entry radii.now) kind 128 sub) (w.reach + 2) w.at rows.new }
{
    let there = span(w.reach + 2, sub.n, sub.closed, w.at);
    // Kept: by index, which `near` tests and at which the row is written.
    for i in there.from..there.to {
        if !near(w.reach + 2, sub.n, sub.closed, w.at, i) {
            continue;
        }
        rows[i] = row_at(anchors, radii, sub, i);
    }
}

// The corner whose row this is, at index i, and the tables of its sides.
pub fn corner_of_row(
    anchors: &[f64],
    sub: Sub,
    i: usize,
    r: Row,
    table_u: &mut [f64],
    table_v: &mut [f64],
) -> Corner
    requires { Fits sub (length anchors.now) × (i < sub.n) × (length table_u.old ≡ 129) × (length table_v.old ≡ 129) }
    ensures corner { (radius : ℕ → Float) (kind : ℕ → CornerKind) → let v = view_of (anchor_at anchors.now) radius kind 128 sub in RowHeld v i (Some r) → corner_at v i ≡ Some result }
    ensures table_u { Serves 128 table_u.new result.side_u }
    ensures table_v { Serves 128 table_v.new result.side_v }
{
    let a = sub.anchor(anchors, i);
    let prev = sub.anchor(anchors, sub.before(i));
    let next = sub.anchor(anchors, sub.after(i));
    let side_u = Side::of(a.p, a.h_in, prev.h_out, prev.p);
    let side_v = Side::of(a.p, a.h_out, next.h_in, next.p);
    Corner {
        at: a.p,
        u: r.u,
        v: r.v,
        lu: side_u.measure(r.lu, table_u),
        lv: side_v.measure(r.lv, table_v),
        side_u,
        side_v,
    }
}
