// Lengths along a curve, by a running sum of its 128 chords.
ghost use Rattle.std.specs.Prelude.{◌≡◌, true, List, ℕ, ◌+◌, ◌<◌, length};
ghost use Rattle.std.specs.Float.Ieee.{lt};
ghost use Rattle.root.specs.Root.{root_of};
ghost use Rattle.views.specs.View.{entry, tabulate};
ghost use Rattle.views.specs.Search.{first_false};
ghost use Rattle.real.specs.Sums.{running};
ghost use Rattle.geom.specs.declared.point.P.{P};
ghost use Rattle.cubic.specs.Limits.{curve_in};
ghost use Rattle.cubic.specs.Sample.{chord};
ghost use Rattle.side.specs.Side.{long_enough, chord_square, arclen_table, chord_of, chord_at, share, param_at, at_curve};

use crate::side::{At, unit};
use geom::P;

const CHORDS: usize = 128;

// The sum of all chords. Each point of the curve serves two of them.
// Kept: a loop of its own beside `first_chords`, since it alone makes no test of its sums; an iterator of chords would have to carry the last point.
#[tactic(auto, using(crate::proofs::Lengths::length_next), unfolding(real::specs::Sums::running))]
pub fn curve_length(c: [P; 4]) -> f64
    ensures { result ≡ running (chord c 128) 128 }
{
    let mut len = 0.0;
    let mut p = cubic::step_at(c, CHORDS, 0);
    for k in 0..CHORDS {
        let q = cubic::step_at(c, CHORDS, k + 1);
        len += p.dist(q);
        p = q;
    }
    len
}

// What the first chords of a curve in limit add up to, as far as the first sum above 1e-9: no sum is below the one before it, so that
// one tells whether the length is above 1e-9.
#[tactic(auto, using(crate::proofs::Lengths::length_next))]
pub fn first_chords(c: [P; 4]) -> f64
    requires { curve_in c ≡ true }
    ensures { long_enough result ≡ long_enough (running (chord c 128) 128) }
{
    let mut so_far = 0.0;
    let mut p = cubic::step_at(c, CHORDS, 0);
    for k in 0..CHORDS {
        let q = cubic::step_at(c, CHORDS, k + 1);
        so_far += p.dist(q);
        if 1e-9 < so_far {
            return so_far;
        }
        p = q;
    }
    so_far
}

// The sums of the first 0, 1, .. 128 chords, the last of which is the curve's length. The squares of all chords come first, then their
// roots: a processor has more of either under way at once than of both together.
pub fn arclen_table(c: [P; 4], table: &mut [f64])
    requires { length table.old ≡ 129 }
    ensures { table.new ≡ arclen_table c 128 }
{
    put_squares(c, table);
    add_roots(table);
}

// The square of each chord, at the index of its end.
fn put_squares(c: [P; 4], table: &mut [f64])
    requires { length table.old ≡ 129 }
    ensures { (k : ℕ) → k < 128 → entry table.new (k + 1) ≡ chord_square c 128 k }
{
    let mut p = cubic::step_at(c, CHORDS, 0);
    for k in 0..CHORDS {
        let q = cubic::step_at(c, CHORDS, k + 1);
        let d = p - q;
        table[k + 1] = d.dot(d);
        p = q;
    }
}

// The sums of the roots of the numbers from index 1 on.
fn add_roots(table: &mut [f64])
    requires { length table.old ≡ 129 }
    ensures { table.new ≡ tabulate 129 (running (λ k. root_of (entry table.old (k + 1)))) }
{
    let mut sum = 0.0;
    table[0] = sum;
    // Kept: by index, since of what `iter_mut` has written a proof knows only how long it is.
    for k in 0..CHORDS {
        sum += root::root(table[k + 1]);
        table[k + 1] = sum;
    }
}

// The parameter at which a curve's chords add up to s: its table is searched for the first sum not below s.
fn param_at(table: &[f64; 129], s: f64) -> f64
    ensures { (c : List P) → table.now ≡ arclen_table c 128 → result ≡ param_at (chord c 128) 128 s (chord_at (chord c 128) 128 s) }
{
    let k = chord_of(first_not_below(table, s));
    ((k - 1) as f64 + share(table[k - 1], table[k], s)) / CHORDS as f64
}

// The first entry that is not below s, or 129.
fn first_not_below(table: &[f64; 129], s: f64) -> usize
    ensures { result ≡ first_false (λ k. lt (entry table.now k) s) 129 }
{
    table.iter().position(|sum| !(*sum < s)).unwrap_or(129)
}

// The chord, counted from 1, that follows so many sums below s.
fn chord_of(below: usize) -> usize
    ensures { result ≡ chord_of 128 below }
{
    below.clamp(1, CHORDS)
}

// How much of a chord between the sums l0 and l1 lies before s.
fn share(l0: f64, l1: f64, s: f64) -> f64
    ensures { result ≡ share l0 l1 s }
{
    let f = if l0 < l1 { (s - l0) / (l1 - l0) } else { 0.0 };
    real::clamp(f, 0.0, 1.0)
}

// The place s along a curve, by its table; u stands in for the direction where the curve has none there.
pub fn at_curve(c: [P; 4], s: f64, u: P, table: &[f64; 129]) -> At
    requires { table.now ≡ arclen_table c 128 }
    ensures { result ≡ at_curve 128 c s u }
{
    let t = param_at(table, s);
    let p = cubic::cubic_at(c, t);
    let d = cubic::deriv_at(c, t);
    let dir = if path::beyond(d) { unit(d) } else { u };
    At { t, p, dir }
}
