// Places that were laid in scratch lists go to the lists of a cache: refusal 9, at the place.
// Kept: numbers and flags by themselves, as the C interface lends them.
ghost use Rattle.std.specs.Prelude.{◌≡◌, ◌+◌, ◌*◌, ◌≤◌, length, get_or};
ghost use Rattle.path.specs.Shape.{total};
ghost use Rattle.path.specs.Limit.{first_bad};
ghost use Rattle.views.specs.View.{entry};
ghost use Rattle.call.specs.Answers.{outline_answer, list_left};
ghost use Rattle.cache.specs.Tests.{twelve_in, cache_verdict};

use call::Outline;
use refusal::{Reason, Refusal};

// Whether the twelve numbers of place k are in the limit. With a call at each place `build` took 1.01 of its time.
#[inline(always)]
pub fn place_in_limit(numbers: &[f64], k: usize) -> bool
    requires { (k ≤ 1024) × (k * 12 + 12 ≤ length numbers.now) }
    ensures { result ≡ twelve_in numbers.now k }
{
    let b = k * 12;
    numbers[b..b + 12].iter().all(|x| real::in_limit(*x))
}

// The first of n places of which one of the twelve numbers breaks the limit.
// Kept: n beside the list, which is lent longer than what it holds.
pub fn first_bad_place(numbers: &[f64], n: usize) -> Option<usize>
    requires { (n ≤ 512) × (n * 12 ≤ length numbers.now) }
    ensures { result ≡ first_bad (twelve_in numbers.now) n }
{
    (0..n).find(|&k| !place_in_limit(numbers, k))
}

// The places of a path that stand in scratch lists go to the cache's, unless a number of them breaks the limit.
pub fn write_cache(
    shapes: &[u32],
    laid: &[f64],
    laid_flags: &[u32],
    numbers: &mut [f64],
    flags: &mut [u32],
) -> Result<Outline, Refusal>
    requires shapes_len_bound { (length shapes.now ≤ 32) × (total shapes.now ≤ 512) × (total shapes.now * 12 ≤ length laid.now) × (total shapes.now ≤ length laid_flags.now) }
    requires shapes_in_bounds { (total shapes.now * 12 ≤ length numbers.old) × (total shapes.now ≤ length flags.old) }
    ensures answer { result ≡ outline_answer (cache_verdict (twelve_in laid.now) (total shapes.now)) (length shapes.now) (total shapes.now) }
    ensures numbers { numbers.new ≡ list_left (cache_verdict (twelve_in laid.now) (total shapes.now)) (total shapes.now * 12) (entry laid.now) numbers.old }
    ensures flags { flags.new ≡ list_left (cache_verdict (twelve_in laid.now) (total shapes.now)) (total shapes.now) (λ k. get_or laid_flags.now k 0) flags.old }
{
    let n = path::total_of(shapes);
    if let Some(k) = first_bad_place(laid, n) {
        return Err(Reason::Made.at(k));
    }
    views::copy(laid, n * 12, numbers);
    views::copy(laid_flags, n, flags);
    Ok(Outline {
        subpaths: shapes.len(),
        anchors: n,
    })
}
