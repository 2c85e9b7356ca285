// A stretch of a subpath about a window: at most 15 anchors in a row, round the end where the subpath is closed; all of a subpath that has no more.
// Kept: anchors and radii by themselves, as the C interface lends them.
ghost use Rattle.std.specs.Prelude.{◌≡◌, ℕ, ◌+◌, ◌-◌, ◌*◌, ◌≤◌, ◌<◌, length};
ghost use Rattle.cut.specs.Near.{old};
ghost use Rattle.cut.specs.Unrolled.{unrolled, rolled};
ghost use Rattle.recutting.specs.Stretch.{Start, About, From};

use cut::{Indices, Sub, Window};

// The subpath's index at which it starts, how many anchors it has, whether it is a whole closed subpath, and its index about which the window is.
#[derive(Clone, Copy)]
pub struct Stretch {
    pub from: usize,
    pub n: usize,
    pub closed: bool,
    pub mid: usize,
}

// The window with three anchors more on each side, as far as there are.
// Kept: three facts by themselves, since Around would ask where the subpath ends in its path.
pub fn stretch_of(sub: Sub, w: Window) -> Stretch
    requires { (w.at < sub.n) × (w.reach ≤ 4) × (sub.n ≤ 1024) }
    ensures { About sub w result }
{
    let side = w.reach + 3;
    if sub.n <= 15 {
        return Stretch {
            from: 0,
            n: sub.n,
            closed: sub.closed,
            mid: w.at,
        };
    }
    if sub.closed {
        // `side` steps back from `w.at`, round the end
        return Stretch {
            from: rolled(sub.n, side, w.at),
            n: 2 * side + 1,
            closed: false,
            mid: side,
        };
    }
    let Indices { from, to } = cut::span(side, sub.n, false, w.at);
    Stretch {
        from,
        n: to - from,
        closed: false,
        mid: w.at - from,
    }
}

// The subpath's index of index j of a stretch, and back.
fn unrolled(n: usize, from: usize, j: usize) -> usize
    requires { Start n from × (j ≤ n) }
    ensures { result ≡ unrolled n from j }
{
    if from + j < n { from + j } else { from + j - n }
}

pub fn rolled(n: usize, from: usize, i: usize) -> usize
    requires { Start n from × (i < n) }
    ensures { result ≡ rolled n from i }
{
    if from <= i { i - from } else { i + n - from }
}

// The index that i had before an anchor was put in after index `gap`.
fn stood(gap: usize, i: usize) -> usize
    ensures { result ≡ old gap i }
{
    if i <= gap { i } else { i - 1 }
}

// Six numbers an anchor, and its radius.
// Kept: two lists, as the passes are lent them.
#[derive(Drop)]
pub struct Gathered {
    pub anchors: [f64; 90],
    pub radii: [f64; 15],
}

// The anchors of a stretch of a subpath in which one is to be put in after index `gap`, each as it was; past the end: none is.
pub fn gather(anchors: &[f64], radii: &[f64], sub: Sub, s: Stretch, gap: usize) -> Gathered
    requires n_bound { Start sub.n s.from × (s.n ≤ sub.n) × (s.n ≤ 15) }
    requires by_index { (i : ℕ) → i < sub.n → ((sub.first + old gap i) * 6 + 6 ≤ length anchors.now) × (sub.first + old gap i < length radii.now) × (sub.first + old gap i ≤ 1024) }
    ensures { From anchors.now radii.now sub s gap result }
{
    let mut g = Gathered {
        anchors: [0.0f64; 90],
        radii: [0.0f64; 15],
    };
    // Kept: by index, since a proof learns only the length of what iter_mut leaves.
    for j in 0..s.n {
        let i = sub.first + stood(gap, unrolled(sub.n, s.from, j));
        path::put_anchor(&mut g.anchors, j, path::anchor_at(anchors, i));
        g.radii[j] = radii[i];
    }
    g
}
