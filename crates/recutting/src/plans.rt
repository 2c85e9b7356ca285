// The places within reach recut in a stretch, tested, and then written: a plan is made from lists that are only read.
// Kept: anchors and radii, numbers and flags by themselves, as the C interface lends them.
ghost use Rattle.std.specs.Prelude.{◌≡◌, IfOk, ℕ, ◌+◌, ◌-◌, ◌*◌, ◌≤◌, ◌<◌, length, true, false};
ghost use Rattle.path.specs.Limit.{first_bad};
ghost use Rattle.cache.specs.Tests.{twelve_in};
ghost use Rattle.cut.specs.View.{View};
ghost use Rattle.cut.specs.Recut.{put_place, recut_numbers, recut_flags};
ghost use Rattle.path.specs.Flat.{anchor_at};
ghost use Rattle.cut.specs.Near.{near};
ghost use Rattle.cut.specs.Unrolled.{rolled};
ghost use Rattle.recutting.specs.Near.{Around, passes_near};
ghost use Rattle.recutting.specs.Stretch.{About, Stretched, HoldsNumbers, HoldsFlags, Decides, Put};

use crate::stretches::{Stretch, gather, rolled, stretch_of};
use corner::CornerKind;
use cut::{Sub, Window};
use path::Anchor;
use refusal::{Reason, Refusal};

// How many places are recut, how many anchors there then are, and the places of the stretch, which starts at index `from` of its subpath.
// Kept: numbers and flags in two lists, as the passes write them.
#[derive(Drop)]
pub struct Plan {
    pub count: usize,
    pub total: usize,
    pub from: usize,
    pub numbers: [f64; 180],
    pub flags: [u32; 15],
}

// The lowest place within reach that breaks the limit; a stretch that starts at index `from` holds it.
fn first_bad(sub: Sub, w: Window, from: usize, numbers: &[f64]) -> Option<usize>
    requires n_bound { Around sub w × (from < sub.n) }
    requires by_index { (i : ℕ) → i < sub.n → near w.reach sub.n sub.closed w.at i ≡ true → rolled sub.n from i * 12 + 12 ≤ length numbers.now }
    ensures { result ≡ first_bad (passes_near sub w (λ k. twelve_in numbers.now (rolled sub.n from (k - sub.first)))) (sub.first + sub.n) }
{
    let there = cut::span(w.reach, sub.n, sub.closed, w.at);
    let i = (there.from..there.to).find(|&i| {
        cut::near(w.reach, sub.n, sub.closed, w.at, i)
            && !cache::place_in_limit(numbers, rolled(sub.n, from, i))
    })?;
    Some(sub.first + i)
}

// Recuts the places within reach in the stretch s, whose anchors and radii are lent, and tests them: 9. There will be `total` anchors.
pub fn plan_recut(
    anchors: &[f64],
    radii: &[f64],
    kind: CornerKind,
    sub: Sub,
    w: Window,
    s: Stretch,
    total: usize,
) -> Result<Plan, Refusal>
    requires about { About sub w s × Around sub w }
    requires anchors_len { (length anchors.now ≡ 90) × (length radii.now ≡ 15) }
    ensures { IfOk result (λ p. p.total ≡ total) × ((v : View) → Stretched v kind sub s anchors.now radii.now → Decides v sub w result) }
{
    // Kept: four lists of scratch, as the passes are lent them one by one.
    let mut rows = [None; 15];
    let mut cuts = [None; 15];
    let mut numbers = [0.0f64; 180];
    let mut flags = [0u32; 15];
    let count = passes::recut(
        anchors,
        radii,
        kind,
        Sub {
            first: 0,
            n: s.n,
            closed: s.closed,
        },
        Window {
            at: s.mid,
            reach: w.reach,
        },
        &mut rows,
        &mut cuts,
        &mut numbers,
        &mut flags,
    );
    match first_bad(sub, w, s.from, &numbers) {
        Some(k) => Err(Reason::Made.at(k)),
        None => Ok(Plan {
            count,
            total,
            from: s.from,
            numbers,
            flags,
        }),
    }
}

// The plan of an edit that puts an anchor and its radius at the index about which the window is.
pub fn plan_put(
    anchors: &[f64],
    radii: &[f64],
    kind: CornerKind,
    sub: Sub,
    w: Window,
    new: Anchor,
    radius: f64,
    total: usize,
) -> Result<Plan, Refusal>
    requires { Around sub w × ((sub.first + sub.n) * 6 ≤ length anchors.now) × (sub.first + sub.n ≤ length radii.now) }
    ensures { IfOk result (λ p. p.total ≡ total) × ((v : View) → Put v kind sub w.at new radius anchors.now radii.now → Decides v sub w result) }
{
    let s = stretch_of(sub, w);
    let mut g = gather(anchors, radii, sub, s, sub.n);
    path::put_anchor(&mut g.anchors, s.mid, new);
    g.radii[s.mid] = radius;
    plan_recut(&g.anchors, &g.radii, kind, sub, w, s, total)
}

// The twelve numbers of place j of a list, put at place k of another.
fn put_place(from: &[f64], j: usize, k: usize, to: &mut [f64])
    requires { (j ≤ 1024) × (k ≤ 1024) × (j * 12 + 12 ≤ length from.now) × (k * 12 + 12 ≤ length to.old) }
    ensures { to.new ≡ put_place to.old k (record { cut = false; start = anchor_at from.now (2 * j); end = anchor_at from.now (2 * j + 1) }) }
{
    path::put_anchor(to, 2 * k, path::anchor_at(from, 2 * j));
    path::put_anchor(to, 2 * k + 1, path::anchor_at(from, 2 * j + 1));
}

// Writes each place within reach, and its flag, from a stretch that starts at index `from`.
pub fn write_places(
    sub: Sub,
    w: Window,
    from: usize,
    made: &[f64; 180],
    marks: &[u32; 15],
    numbers: &mut [f64],
    flags: &mut [u32],
)
    requires n_bound { Around sub w × (from < sub.n) }
    requires by_index { (i : ℕ) → i < sub.n → near w.reach sub.n sub.closed w.at i ≡ true → rolled sub.n from i < 15 }
    requires n_in_bounds { ((sub.first + sub.n) * 12 ≤ length numbers.old) × (sub.first + sub.n ≤ length flags.old) }
    ensures numbers { (v : View) → (v.n ≡ sub.n) × (v.closed ≡ sub.closed) × HoldsNumbers v sub w from made.now → numbers.new ≡ recut_numbers v sub.first w.reach w.at numbers.old }
    ensures flags { (v : View) → (v.n ≡ sub.n) × (v.closed ≡ sub.closed) × HoldsFlags v sub w from marks.now → flags.new ≡ recut_flags v sub.first w.reach w.at flags.old }
{
    let there = cut::span(w.reach, sub.n, sub.closed, w.at);
    // Kept: by index, since a proof learns only the length of what iter_mut leaves.
    for i in there.from..there.to {
        if !cut::near(w.reach, sub.n, sub.closed, w.at, i) {
            continue;
        }
        let j = rolled(sub.n, from, i);
        let k = sub.first + i;
        put_place(made, j, k, numbers);
        flags[k] = marks[j];
    }
}
