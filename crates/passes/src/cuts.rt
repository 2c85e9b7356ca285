// The second pass: the cuts within one step more than the reach.
ghost use Rattle.std.specs.Prelude.{◌≡◌, ◌+◌, ◌≤◌, ◌<◌, None, get_or, length};
ghost use Rattle.views.specs.View.{entry};
ghost use Rattle.path.specs.Flat.{anchor_at};
ghost use Rattle.path.specs.Shape.{prev, next};
ghost use Rattle.cut.specs.Subpath.{Fits, Inside, view_of};
ghost use Rattle.cut.specs.Places.{cut_at};
ghost use Rattle.cut.specs.Rows.{HoldsRows, HoldsBeside, HoldsCuts, asked_in, fitted_of};

use crate::corners::corner_of_row;
use corner::{Corner, CornerKind, Cut};
use cut::{Row, Sub, Window, near, span};

// The radius that fits a corner where this one is set, its neighbours' cuts reaching so far along the sides.
fn fitted(c: Corner, radius: f64, before: f64, after: f64) -> f64
    ensures { result ≡ fitted_of c radius before after }
{
    real::min(real::max(radius, 0.0), c.max_radius_beside(before, after))
}

// How far a row asks for its sides: 0 where there is no corner.
fn asked(row: Option<Row>) -> f64
    ensures { result ≡ asked_in row }
{
    row.map_or(0.0, |r| r.asked)
}

// The radius that fits, by the rows of its neighbours.
fn fitted_beside(c: Corner, radius: f64, rows: &[Option<Row>], sub: Sub, i: usize) -> f64
    requires { (i < sub.n) × (sub.n ≤ length rows.now) }
    ensures { result ≡ fitted_of c radius (asked_in (get_or rows.now (prev sub.n i) None)) (asked_in (get_or rows.now (next sub.n i) None)) }
{
    fitted(
        c,
        radius,
        asked(rows[sub.before(i)]),
        asked(rows[sub.after(i)]),
    )
}

// The cut at index i, if there is one. Sides are measured only where a radius is set.
fn cut_at(
    anchors: &[f64],
    radii: &[f64],
    kind: CornerKind,
    sub: Sub,
    i: usize,
    rows: &[Option<Row>],
    table_u: &mut [f64; 129],
    table_v: &mut [f64; 129],
) -> Option<Cut>
    requires fits { Fits sub (length anchors.now) × (i < sub.n) × (sub.first + sub.n ≤ length radii.now) × (sub.n ≤ length rows.now) }
    requires rows { HoldsBeside (view_of (anchor_at anchors.now) (entry radii.now) (λ k. kind) 128 sub) i rows.now }
    ensures { result ≡ cut_at (view_of (anchor_at anchors.now) (entry radii.now) (λ k. kind) 128 sub) i }
{
    let radius = radii[sub.first + i];
    if !(1e-9 < radius) {
        return None;
    }
    let row = rows[i]?;
    let c = corner_of_row(anchors, sub, i, row, table_u, table_v);
    let r = fitted_beside(c, radius, rows, sub, i);
    if 1e-9 < r {
        Some(c.cut(r, kind, table_u, table_v))
    } else {
        None
    }
}

pub fn make_cuts(
    anchors: &[f64],
    radii: &[f64],
    kind: CornerKind,
    sub: Sub,
    w: Window,
    rows: &[Option<Row>],
    cuts: &mut [Option<Cut>],
)
    requires fits { Fits sub (length anchors.now) × Inside sub w × (sub.first + sub.n ≤ length radii.now) }
    requires n_in_bounds { (sub.n ≤ length rows.now) × (sub.n ≤ length cuts.old) }
    requires holds_rows { HoldsRows (view_of (anchor_at anchors.now) (entry radii.now) (λ k. kind) 128 sub) (w.reach + 2) w.at rows.now }
    ensures cuts_kept { length cuts.new ≡ length cuts.old }
    ensures cuts { HoldsCuts (view_of (anchor_at anchors.now) (entry radii.now) (λ k. kind) 128 sub) (w.reach + 1) w.at cuts.new }
{
    let mut table_u = [0.0f64; 129];
    let mut table_v = [0.0f64; 129];
    let there = span(w.reach + 1, sub.n, sub.closed, w.at);
    // Kept: by index, which `near` tests and at which the cut is written.
    for i in there.from..there.to {
        if !near(w.reach + 1, sub.n, sub.closed, w.at, i) {
            continue;
        }
        cuts[i] = cut_at(
            anchors,
            radii,
            kind,
            sub,
            i,
            rows,
            &mut table_u,
            &mut table_v,
        );
    }
}
