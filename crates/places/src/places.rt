// The third pass: what the cut leaves at each index within reach.
ghost use Rattle.std.specs.Prelude.{◌≡◌, true, ℕ, ◌+◌, ◌*◌, ◌≤◌, ◌<◌, Float, length};
ghost use Rattle.path.specs.Flat.{anchor_at};
ghost use Rattle.corner.specs.declared.kind.CornerKind.{CornerKind};
ghost use Rattle.path.specs.Shape.{prev};
ghost use Rattle.cut.specs.View.{arrives, leaves};
ghost use Rattle.cut.specs.Subpath.{Fits, Inside, view_of};
ghost use Rattle.cut.specs.Near.{near, near_count};
ghost use Rattle.cut.specs.Places.{trim, trimmed_at, in_at, out_at, place_at, place_of};
ghost use Rattle.cut.specs.Rows.{flag_of, HoldsCuts, HoldsEnds};
ghost use Rattle.cut.specs.Recut.{put_place, recut_numbers, recut_flags};

use corner::Cut;
use cut::{CUT_FLAG, Place, Sub, Trim, Window, arrives, leaves, near, span};
use geom::P;
use path::Anchor;

// The handles of what is left of the segment from a to b, with the cuts at its ends.
fn trim_segment(a: Anchor, b: Anchor, c: Option<Cut>, d: Option<Cut>) -> Trim
    ensures { result ≡ trim a b c d }
{
    if a.h_out == a.p && b.h_in == b.p {
        return Trim {
            out: c.map_or(a.p, |k| k.end),
            into: d.map_or(b.p, |k| k.start),
        };
    }
    let from = c.map_or(0.0, |k| k.tv);
    let to = d.map_or(1.0, |k| 1.0 - k.tu);
    let left = cubic::subsegment(a.cubic(b), from, real::max(to, from));
    Trim {
        out: left[1],
        into: left[2],
    }
}

// The handles of the segment that leaves index j.
fn trimmed_at(anchors: &[f64], sub: Sub, cuts: &[Option<Cut>], j: usize) -> Trim
    requires { Fits sub (length anchors.now) × (j < sub.n) × (sub.n ≤ length cuts.now) }
    ensures { (radius : ℕ → Float) (kind : ℕ → CornerKind) → let v = view_of (anchor_at anchors.now) radius kind 128 sub in HoldsEnds v j cuts.now → result ≡ trimmed_at v j }
{
    let k = sub.after(j);
    let a = sub.anchor(anchors, j);
    let b = sub.anchor(anchors, k);
    if cuts[j].is_some() || cuts[k].is_some() {
        return trim_segment(a, b, cuts[j], cuts[k]);
    }
    Trim {
        out: a.h_out,
        into: b.h_in,
    }
}

// The handles into and out of index i.
// Kept: two functions, since one reads the segment before i and the other the one from i; one over a side would choose at each step.
fn handle_in(anchors: &[f64], sub: Sub, cuts: &[Option<Cut>], i: usize) -> P
    requires { Fits sub (length anchors.now) × (i < sub.n) × (sub.n ≤ length cuts.now) }
    ensures { (radius : ℕ → Float) (kind : ℕ → CornerKind) → let v = view_of (anchor_at anchors.now) radius kind 128 sub in (arrives v i ≡ true → HoldsEnds v (prev sub.n i) cuts.now) → result ≡ in_at v i }
{
    if arrives(sub, i) {
        trimmed_at(anchors, sub, cuts, sub.before(i)).into
    } else {
        sub.anchor(anchors, i).h_in
    }
}

fn handle_out(anchors: &[f64], sub: Sub, cuts: &[Option<Cut>], i: usize) -> P
    requires { Fits sub (length anchors.now) × (i < sub.n) × (sub.n ≤ length cuts.now) }
    ensures { (radius : ℕ → Float) (kind : ℕ → CornerKind) → let v = view_of (anchor_at anchors.now) radius kind 128 sub in (leaves v i ≡ true → HoldsEnds v i cuts.now) → result ≡ out_at v i }
{
    if leaves(sub, i) {
        trimmed_at(anchors, sub, cuts, i).out
    } else {
        sub.anchor(anchors, i).h_out
    }
}

// What is left at an anchor, with its handles in and out, where it is cut and where it is not.
fn place_of(a: Anchor, cut: Option<Cut>, into: P, out: P) -> Place
    ensures { result ≡ place_of a cut into out }
{
    match cut {
        Some(c) => Place {
            cut: true,
            start: Anchor {
                p: c.start,
                h_in: into,
                h_out: c.h_out,
            },
            end: Anchor {
                p: c.end,
                h_in: c.h_in,
                h_out: out,
            },
        },
        None => Place {
            cut: false,
            start: Anchor {
                p: a.p,
                h_in: into,
                h_out: out,
            },
            end: Anchor::corner(P { x: 0.0, y: 0.0 }),
        },
    }
}

// What is left at index i.
fn place_at(anchors: &[f64], sub: Sub, w: Window, cuts: &[Option<Cut>], i: usize) -> Place
    requires { Fits sub (length anchors.now) × Inside sub w × (i < sub.n) × (sub.n ≤ length cuts.now) }
    ensures { (radius : ℕ → Float) (kind : ℕ → CornerKind) → let v = view_of (anchor_at anchors.now) radius kind 128 sub in HoldsCuts v (w.reach + 1) w.at cuts.now → near w.reach sub.n sub.closed w.at i ≡ true → result ≡ place_at v i }
{
    let into = handle_in(anchors, sub, cuts, i);
    let out = handle_out(anchors, sub, cuts, i);
    place_of(sub.anchor(anchors, i), cuts[i], into, out)
}

// Puts a place: twelve numbers, those of its start, then those of its end.
pub fn put_place(numbers: &mut [f64], k: usize, q: Place)
    requires { k * 12 + 12 ≤ length numbers.old }
    ensures { numbers.new ≡ put_place numbers.old k q }
{
    path::put_anchor(numbers, 2 * k, q.start);
    path::put_anchor(numbers, 2 * k + 1, q.end);
}

// Its flag.
fn flag_of(cut: bool) -> u32
    ensures { result ≡ flag_of cut }
{
    if cut { CUT_FLAG } else { 0 }
}

// Writes each place within reach, and its flag. The answer is how many.
pub fn lay_places(
    anchors: &[f64],
    sub: Sub,
    w: Window,
    cuts: &[Option<Cut>],
    numbers: &mut [f64],
    flags: &mut [u32],
) -> usize
    requires fits { Fits sub (length anchors.now) × Inside sub w × (sub.n ≤ length cuts.now) }
    requires n_in_bounds { ((sub.first + sub.n) * 12 ≤ length numbers.old) × (sub.first + sub.n ≤ length flags.old) }
    ensures count { result ≡ near_count w.reach sub.n sub.closed w.at }
    ensures numbers { (radius : ℕ → Float) (kind : ℕ → CornerKind) → let v = view_of (anchor_at anchors.now) radius kind 128 sub in HoldsCuts v (w.reach + 1) w.at cuts.now → numbers.new ≡ recut_numbers v sub.first w.reach w.at numbers.old }
    ensures flags { (radius : ℕ → Float) (kind : ℕ → CornerKind) → let v = view_of (anchor_at anchors.now) radius kind 128 sub in HoldsCuts v (w.reach + 1) w.at cuts.now → flags.new ≡ recut_flags v sub.first w.reach w.at flags.old }
{
    let mut count: usize = 0;
    let there = span(w.reach, sub.n, sub.closed, w.at);
    // Kept: by index, at which two lists are written; the count is of the indices that `near` lets through.
    for i in there.from..there.to {
        if !near(w.reach, sub.n, sub.closed, w.at, i) {
            continue;
        }
        put_place(numbers, sub.first + i, place_at(anchors, sub, w, cuts, i));
        flags[sub.first + i] = flag_of(cuts[i].is_some());
        count += 1;
    }
    count
}
