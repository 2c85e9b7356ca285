// From places, twelve numbers and a flag each, to a path.
ghost use Rattle.std.specs.Prelude.{◌≡◌, ◌+◌, ◌*◌, ◌≤◌, ◌<◌, ◌&&◌, leb, ltb, eqb, length, get_or};
ghost use Rattle.views.specs.View.{overwrite};
ghost use Rattle.path.specs.Shape.{total};
ghost use Rattle.path.specs.Flat.{put_all, listed};
ghost use Rattle.cut.specs.Outline.{anchors_at, assembled};
ghost use Rattle.assembly.specs.Assembled.{place_read, places_from, outline_of, outline_shapes};

use cut::{CUT_FLAG, Sub};

// Whether place k is cut: the top bit of its flag.
// Kept: numbers and flags in two lists, here and below, since the C interface has them so.
fn is_cut(flags: &[u32], k: usize) -> bool
    requires { k < length flags.now }
    ensures { result ≡ leb 2147483648 (get_or flags.now k 0) }
{
    flags[k] >= CUT_FLAG
}

// Whether index i is anchor 0 of a closed subpath, whose start comes last where it is cut.
fn is_seam(closed: bool, i: usize) -> bool
    ensures { result ≡ (closed && eqb i 0) }
{
    closed && i == 0
}

// Puts the anchors of the place at index i of a subpath, at anchor `at` of the outline; the start of a closed subpath's
// cut anchor 0 is held back. The answer is where the next anchor goes.
#[tactic(auto, unfolding(cut::specs::Outline::anchors_at, path::specs::Flat::put_all, crate::specs::Assembled::place_read))]
fn put_anchors(
    numbers: &[f64],
    flags: &[u32],
    sub: Sub,
    i: usize,
    to: &mut [f64],
    at: usize,
) -> usize
    requires i_bound { (sub.first + i < 512) × ((sub.first + i) * 12 + 12 ≤ length numbers.now) × (sub.first + i < length flags.now) }
    requires at_bound { (at < 1024) × (at * 6 + 12 ≤ length to.old) }
    ensures next { result ≡ at + length (anchors_at sub.closed (places_from numbers.now flags.now sub.first) i) }
    ensures anchors { to.new ≡ put_all to.old at (anchors_at sub.closed (places_from numbers.now flags.now sub.first) i) }
{
    let k = sub.first + i;
    let start = path::anchor_at(numbers, 2 * k);
    if !is_cut(flags, k) {
        path::put_anchor(to, at, start);
        return at + 1;
    }
    let end = path::anchor_at(numbers, 2 * k + 1);
    if is_seam(sub.closed, i) {
        path::put_anchor(to, at, end);
        return at + 1;
    }
    path::put_anchor(to, at, start);
    path::put_anchor(to, at + 1, end);
    at + 2
}

// Whether the start of anchor 0 was held back.
fn is_held_back(flags: &[u32], sub: Sub) -> bool
    requires { sub.first + sub.n ≤ length flags.now }
    ensures { result ≡ (sub.closed && (ltb 0 sub.n && leb 2147483648 (get_or flags.now sub.first 0))) }
{
    sub.closed && sub.n > 0 && is_cut(flags, sub.first)
}

// Puts the outline of a subpath. The answer is where the next anchor goes.
fn assemble_subpath(numbers: &[f64], flags: &[u32], sub: Sub, to: &mut [f64], at: usize) -> usize
    requires n_bound { (sub.first + sub.n ≤ 512) × ((sub.first + sub.n) * 12 ≤ length numbers.now) × (sub.first + sub.n ≤ length flags.now) }
    requires n_bound_2 { (at + 2 * sub.n ≤ 1024) × ((at + 2 * sub.n) * 6 ≤ length to.old) }
    ensures next { result ≡ at + length (assembled sub.n sub.closed (places_from numbers.now flags.now sub.first)) }
    ensures anchors { to.new ≡ put_all to.old at (assembled sub.n sub.closed (places_from numbers.now flags.now sub.first)) }
{
    let mut next = at;
    // Kept: by index, since a place is read at it in both lists, and it tells which place is the first.
    for i in 0..sub.n {
        next = put_anchors(numbers, flags, sub, i, to, next);
    }
    if is_held_back(flags, sub) {
        path::put_anchor(to, next, path::anchor_at(numbers, 2 * sub.first));
        return next + 1;
    }
    next
}

// Puts the outline of a path: a shape word for each subpath, and the anchors. The answer is how many anchors.
pub fn assemble(
    shapes: &[u32],
    numbers: &[f64],
    flags: &[u32],
    to_shapes: &mut [u32],
    to: &mut [f64],
) -> usize
    requires shapes_len_bound { (length shapes.now ≤ 32) × (total shapes.now ≤ 512) × (total shapes.now * 12 ≤ length numbers.now) × (total shapes.now ≤ length flags.now) }
    requires shapes_in_bounds { (length shapes.now ≤ length to_shapes.old) × (total shapes.now * 12 ≤ length to.old) }
    ensures count { result ≡ length (outline_of shapes.now (place_read numbers.now flags.now)) }
    ensures shapes { to_shapes.new ≡ overwrite (length shapes.now) (outline_shapes shapes.now (place_read numbers.now flags.now)) to_shapes.old }
    ensures anchors { to.new ≡ listed (outline_of shapes.now (place_read numbers.now flags.now)) to.old }
{
    let mut first: usize = 0;
    let mut at: usize = 0;
    for (s, word) in shapes.iter().enumerate() {
        let sub = Sub {
            first,
            n: path::count_of(*word),
            closed: path::closed_of(*word),
        };
        let next = assemble_subpath(numbers, flags, sub, to, at);
        to_shapes[s] = path::word(next - at, sub.closed);
        at = next;
        first += sub.n;
    }
    at
}
