// The limit test: the first place that breaks the limit.
ghost use Rattle.std.specs.Prelude.{◌≡◌, ◌&&◌, ◌*◌, ◌≤◌, ◌<◌, ◌+◌, length};
ghost use Rattle.views.specs.View.{entry};
ghost use Rattle.views.specs.Search.{all};
ghost use Rattle.real.specs.Limit.{in_limit};
ghost use Rattle.path.specs.Shape.{total};
ghost use Rattle.path.specs.Limit.{within_limit, anchor_in, place_in, first_bad};

use crate::shape::total_of;

// Whether x is a number of magnitude at most `limit`.
fn within_limit(limit: f64, x: f64) -> bool
    ensures { result ≡ within_limit limit x }
{
    -limit <= x && x <= limit
}

// Whether each number of a list is. No number decides a branch, so the tests of several overlap; `filter(..).count()` branches at each.
pub fn all_within(limit: f64, list: &[f64]) -> bool
    ensures { result ≡ all (λ i. within_limit limit (entry list.now i)) (length list.now) }
{
    let mut outside: usize = 0;
    for x in list {
        if !within_limit(limit, *x) {
            outside += 1;
        }
    }
    outside == 0
}

fn all_in_limit(list: &[f64]) -> bool
    ensures { result ≡ all (λ i. in_limit (entry list.now i)) (length list.now) }
{
    all_within(131072.0, list)
}

// Whether the six numbers of the anchor at place k are in limit.
fn anchor_in_limit(anchors: &[f64], k: usize) -> bool
    requires { (k < 1024) × (k * 6 + 6 ≤ length anchors.now) }
    ensures { result ≡ anchor_in anchors.now k }
{
    // Kept: a place times six, since the C interface's flat lists have six numbers an anchor.
    let b = k * 6;
    anchors[b..b + 6].iter().all(|x| real::in_limit(*x))
}

// Of a path. The places are searched only where some number is out of limit.
pub fn first_bad_anchor(shapes: &[u32], anchors: &[f64]) -> Option<usize>
    requires { (length shapes.now ≤ 32) × (total shapes.now ≤ 1024) × (total shapes.now * 6 ≤ length anchors.now) }
    ensures { result ≡ first_bad (anchor_in anchors.now) (total shapes.now) }
{
    let n = total_of(shapes);
    if all_in_limit(&anchors[..n * 6]) {
        return None;
    }
    (0..n).find(|&k| !anchor_in_limit(anchors, k))
}

// And the radius there.
fn place_in_limit(anchors: &[f64], radii: &[f64], k: usize) -> bool
    requires { (k < 1024) × (k * 6 + 6 ≤ length anchors.now) × (k < length radii.now) }
    ensures { result ≡ place_in anchors.now radii.now k }
{
    anchor_in_limit(anchors, k) && real::in_limit(radii[k])
}

// Of a drawing: a radius counts at its anchor's place, after the anchor's numbers.
// Kept: beside `first_bad_anchor`, since all that both share is the line of the search; one function that is handed the test is no shorter.
pub fn first_bad_place(shapes: &[u32], anchors: &[f64], radii: &[f64]) -> Option<usize>
    requires { (length shapes.now ≤ 32) × (total shapes.now ≤ 1024) × (total shapes.now * 6 ≤ length anchors.now) × (total shapes.now ≤ length radii.now) }
    ensures { result ≡ first_bad (place_in anchors.now radii.now) (total shapes.now) }
{
    let n = total_of(shapes);
    if all_in_limit(&anchors[..n * 6]) && all_in_limit(&radii[..n]) {
        return None;
    }
    (0..n).find(|&k| !place_in_limit(anchors, radii, k))
}
