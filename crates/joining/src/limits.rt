// The first tests of a join, of two lists without shape words: refusals 7 and 5.
// Kept: counts beside lists, which are lent longer than what they hold.
ghost use Rattle.std.specs.Prelude.{◌≡◌, ◌+◌};
ghost use Rattle.path.specs.Limit.{anchor_in, first_bad};
ghost use Rattle.joining.specs.Joined.{HoldsAnchors};
ghost use Rattle.joining.specs.Call.{list_fits, either_in};

// Whether n anchors are no more than a path may have, and the list has six numbers for each.
pub fn list_fits(n: usize, list: &[f64]) -> bool
    ensures { result ≡ list_fits n list.now }
{
    n <= 512 && n * 6 <= list.len()
}

// The first of a list's n places that breaks the limit.
fn first_bad_of(list: &[f64], n: usize) -> Option<usize>
    requires { HoldsAnchors list.now n }
    ensures { result ≡ first_bad (anchor_in list.now) n }
{
    path::first_bad_anchor(&[path::word(n, false)], list)
}

// The first place that breaks the limit, the target's n places after the drawn ones'.
pub fn first_bad_either(drawn: &[f64], count: usize, target: &[f64], n: usize) -> Option<usize>
    requires drawn { HoldsAnchors drawn.now count }
    requires target { HoldsAnchors target.now n }
    ensures { result ≡ first_bad (either_in drawn.now count target.now) (count + n) }
{
    if let Some(k) = first_bad_of(drawn, count) {
        return Some(k);
    }
    let k = first_bad_of(target, n)?;
    Some(count + k)
}
