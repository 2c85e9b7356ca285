// Anchors under an affine map [a b c d e f], in SVG's order.
ghost use Rattle.std.specs.Prelude.{◌≡◌, ◌*◌, ◌≤◌, length};
ghost use Rattle.views.specs.View.{overwrite};
ghost use Rattle.path.specs.Flat.{anchor_numbers};
ghost use Rattle.transform.specs.Mapped.{mapped, mapped_at, map_in};

use path::Anchor;

// Whether the six numbers of a map are within the limit.
pub fn map_in_limit(m: [f64; 6]) -> bool
    ensures { result ≡ map_in m }
{
    m.iter().all(|x| real::in_limit(*x))
}

fn mapped(m: [f64; 6], a: Anchor) -> Anchor
    ensures { result ≡ mapped m a }
{
    Anchor {
        p: geom::affine_apply(m, a.p),
        h_in: geom::affine_apply(m, a.h_in),
        h_out: geom::affine_apply(m, a.h_out),
    }
}

// The first n anchors of a list, mapped, to the front of another.
// Kept: n beside the lists, which are lent longer than what they hold.
pub fn map_anchors(m: [f64; 6], anchors: &[f64], n: usize, made: &mut [f64])
    requires { (n ≤ 512) × (n * 6 ≤ length anchors.now) × (n * 6 ≤ length made.old) }
    ensures { made.new ≡ overwrite (n * 6) (anchor_numbers (mapped_at m anchors.now)) made.old }
{
    // Kept: by index, since a proof learns only the length of what chunks_exact_mut leaves.
    for k in 0..n {
        path::put_anchor(made, k, mapped(m, path::anchor_at(anchors, k)));
    }
}
