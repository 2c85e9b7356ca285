// The search for a path's corners, subpath by subpath.
// Kept: places and rows by themselves, as the lists are lent to which each is then copied.
ghost use Rattle.std.specs.Prelude.{◌≡◌, ℕ, ◌+◌, ◌*◌, ◌≤◌, ◌<◌, Option, length};
ghost use Rattle.path.specs.Shape.{total};
ghost use Rattle.corner.specs.declared.corner.Corner as corner_type;
ghost use Rattle.cut.specs.Subpath.{Fits};
ghost use Rattle.cut.specs.Places.{corner_at};
ghost use Rattle.corner_calls.specs.Corners.{plain_view, path_corner, put_corner, Holds};

use corner::Corner;
use cut::Sub;

// The corner at index i of a subpath, if there is one, with its sides' lengths.
fn corner_at(anchors: &[f64], sub: Sub, i: usize) -> Option<Corner>
    requires { Fits sub (length anchors.now) × (i < sub.n) }
    ensures { result ≡ corner_at (plain_view anchors.now sub) i }
{
    cut::corner_at(anchors, sub, i).map(|c| c.measured())
}

// Puts a corner's nine numbers. Its largest radius takes the lengths that it holds.
fn put_corner(rows: &mut [f64], i: usize, c: Corner)
    requires { i * 9 + 9 ≤ length rows.old }
    ensures { rows.new ≡ put_corner rows.old i c }
{
    let b = i * 9;
    rows[b] = c.at.x;
    rows[b + 1] = c.at.y;
    rows[b + 2] = c.u.x;
    rows[b + 3] = c.u.y;
    rows[b + 4] = c.v.x;
    rows[b + 5] = c.v.y;
    rows[b + 6] = c.lu;
    rows[b + 7] = c.lv;
    rows[b + 8] = c.max_radius();
}

// Adds the corners of a subpath to the `found` ones before it.
fn find_in_subpath(
    anchors: &[f64],
    sub: Sub,
    found: usize,
    at: &mut [u32],
    rows: &mut [f64],
) -> usize
    requires sub_in_bounds { (sub.first + sub.n ≤ 512) × ((sub.first + sub.n) * 6 ≤ length anchors.now) × (found ≤ sub.first) }
    requires lists_in_bounds { (sub.first + sub.n ≤ length at.old) × ((sub.first + sub.n) * 9 ≤ length rows.old) }
    ensures at_kept { length at.new ≡ length at.old }
    ensures rows_kept { length rows.new ≡ length rows.old }
    ensures few { result ≤ sub.first + sub.n }
    ensures found { (corner : ℕ → Option corner_type.Corner) → ((i : ℕ) → i < sub.n → corner (sub.first + i) ≡ corner_at (plain_view anchors.now sub) i) → Holds corner sub.first at.old rows.old found → Holds corner (sub.first + sub.n) at.new rows.new result }
{
    let mut count = found;
    // Kept: by index and count, since a proof learns only the length of what iter_mut leaves.
    for i in 0..sub.n {
        let Some(c) = corner_at(anchors, sub, i) else {
            continue;
        };
        at[count] = (sub.first + i) as u32;
        put_corner(rows, count, c);
        count += 1;
    }
    count
}

// Puts the place and the numbers of every corner of a path, in order. The answer is how many.
pub fn find_corners(shapes: &[u32], anchors: &[f64], at: &mut [u32], rows: &mut [f64]) -> usize
    requires shapes_len_bound { (length shapes.now ≤ 32) × (total shapes.now ≤ 512) × (total shapes.now * 6 ≤ length anchors.now) }
    requires shapes_in_bounds { (total shapes.now ≤ length at.old) × (total shapes.now * 9 ≤ length rows.old) }
    ensures at_kept { length at.new ≡ length at.old }
    ensures rows_kept { length rows.new ≡ length rows.old }
    ensures found { Holds (path_corner shapes.now anchors.now) (total shapes.now) at.new rows.new result }
    ensures few { result ≤ total shapes.now }
{
    let mut first: usize = 0;
    let mut count: usize = 0;
    for word in shapes {
        let sub = Sub {
            first,
            n: path::count_of(*word),
            closed: path::closed_of(*word),
        };
        count = find_in_subpath(anchors, sub, count, at, rows);
        first += sub.n;
    }
    count
}
