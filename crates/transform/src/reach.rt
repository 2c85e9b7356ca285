// Whether a map keeps a path in limit, found by magnitudes alone: no anchor is mapped.
ghost use Rattle.std.specs.Prelude.{◌≡◌, true, ◌*◌, ◌≤◌, T, length, Ok};
ghost use Rattle.views.specs.View.{entry};
ghost use Rattle.views.specs.Search.{all};
ghost use Rattle.real.specs.StandIns.{abs};
ghost use Rattle.real.specs.Limit.{in_limit};
ghost use Rattle.real.specs.Operators.{◌⊕◌, ◌⊗◌};
ghost use Rattle.refusal.specs.Order.{passes};
ghost use Rattle.path.specs.Shape.{total};
ghost use Rattle.path.specs.Flat.{anchor_numbers};
ghost use Rattle.call.specs.Tests.{opened_path, outline_limit};
ghost use Rattle.transform.specs.Mapped.{mapped_at, mapped_path, map_in};

use crate::mapping::map_in_limit;

// A guess at a magnitude whose points the map keeps in limit. The contract says nothing of how good it is.
fn reach_of(m: [f64; 6]) -> f64
    ensures { result ≡ abs result }
{
    let turn = real::abs(m[0]) + real::abs(m[1]) + real::abs(m[2]) + real::abs(m[3]);
    real::abs(65536.0 / (1.0 + turn))
}

// Whether a·x + c·y + e is in limit even where x and y are as large as `reach` and nothing cancels.
fn keeps(a: f64, c: f64, e: f64, reach: f64) -> bool
    ensures { result ≡ in_limit (abs a ⊗ reach ⊕ abs c ⊗ reach ⊕ abs e) }
{
    real::in_limit(real::abs(a) * reach + real::abs(c) * reach + real::abs(e))
}

// Whether the first n anchors of a list are found to be in limit, and to stay there under the map.
// Kept: n beside the list, since what is said of it is said of n whole anchors.
fn stays_in_limit(m: [f64; 6], anchors: &[f64], n: usize) -> bool
    requires { (n ≤ 512) × (n * 6 ≤ length anchors.now) }
    ensures { T result → (all (λ i. in_limit (entry anchors.now i)) (n * 6) ≡ true) × (all (λ i. in_limit (anchor_numbers (mapped_at m anchors.now) i)) (n * 6) ≡ true) }
{
    let reach = reach_of(m);
    real::in_limit(reach)
        && keeps(m[0], m[2], m[4], reach)
        && keeps(m[1], m[3], m[5], reach)
        && path::all_within(reach, &anchors[..n * 6])
}

// Whether refusals 7, 5 and 9 are found not to come.
pub fn all_but_room(shapes: &[u32], anchors: &[f64], m: [f64; 6]) -> bool
    ensures { T result → (opened_path 512 shapes.now anchors.now ≡ Ok (total shapes.now)) × (map_in m ≡ true) × (outline_limit (mapped_path m shapes.now anchors.now) ≡ passes) }
{
    let Some(n) = path::size_test(shapes, 512) else {
        return false;
    };
    n * 6 <= anchors.len() && map_in_limit(m) && stays_in_limit(m, anchors, n)
}
