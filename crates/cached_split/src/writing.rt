// The lists of a split that no test refused.
// Kept: anchors and radii, numbers and flags by themselves, as the C interface lends them.
// Kept: n beside a list, which is lent longer than what it holds.
ghost use Rattle.std.specs.Prelude.{◌≡◌, ◌+◌, ◌*◌, ◌≤◌, ◌<◌, length};
ghost use Rattle.views.specs.View.{entry, overwrite};
ghost use Rattle.path.specs.Flat.{anchor_at, anchor_numbers};
ghost use Rattle.edit.specs.Gap.{gapped};
ghost use Rattle.edit.specs.Split.{split_anchors, split_shapes, Splittable, Growable};
ghost use Rattle.session.specs.Edits.{split_radii};
ghost use Rattle.session.specs.Model.{long_for};
ghost use Rattle.cached_split.specs.Splitting.{shifted_flags};

use crate::making::{put_anchors, put_radius};

// Whether the lists hold n places.
pub fn has_room(anchors: &[f64], radii: &[f64], numbers: &[f64], flags: &[u32], n: usize) -> bool
    requires { n ≤ 1024 }
    ensures { result ≡ long_for (record { anchors = length anchors.now; radii = length radii.now; numbers = length numbers.now; flags = length flags.now }) n }
{
    n * 6 <= anchors.len() && n <= radii.len() && n * 12 <= numbers.len() && n <= flags.len()
}

// Moves the flags of the places after a, of n, up by one; the new place gets a's.
fn shift_flags(flags: &mut [u32], a: usize, n: usize)
    requires { (a ≤ n) × (n < length flags.old) }
    ensures { flags.new ≡ shifted_flags flags.old a n }
{
    flags.copy_within(a..n, a + 1);
}

// The drawing of n anchors with the segment from place a to place b, of subpath s, split.
pub fn write_drawing(
    shapes: &mut [u32],
    anchors: &mut [f64],
    radii: &mut [f64],
    s: usize,
    a: usize,
    b: usize,
    n: usize,
    t: f64,
)
    requires n_bound { Splittable anchors.old n a b × (n + 1 ≤ length radii.old) }
    requires s_in_bounds { Growable shapes.old s }
    ensures shapes { shapes.new ≡ split_shapes shapes.old s }
    ensures anchors { anchors.new ≡ overwrite ((n + 1) * 6) (anchor_numbers (split_anchors (anchor_at anchors.old) a b t)) anchors.old }
    ensures radii { radii.new ≡ overwrite (n + 1) (split_radii (entry radii.old) a) radii.old }
{
    edit::count_up(shapes, s);
    put_anchors(anchors, n, a, b, t);
    put_radius(radii, n, a);
}

// The cache of n places with those after place a moved up by one.
pub fn shift_cache(numbers: &mut [f64], flags: &mut [u32], a: usize, n: usize)
    requires { (n < 512) × (a < n) × (n * 12 + 12 ≤ length numbers.old) × (n + 1 ≤ length flags.old) }
    ensures numbers { numbers.new ≡ gapped numbers.old a n 12 }
    ensures flags { flags.new ≡ shifted_flags flags.old a n }
{
    edit::shift_up(numbers, a, n, 12);
    shift_flags(flags, a, n);
}
