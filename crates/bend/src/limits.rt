// The limit on two new anchors.
ghost use Rattle.std.specs.Prelude.{◌≡◌};
ghost use Rattle.bend.specs.Edits.{first_out};

use path::Anchor;

// The lower of two places whose new anchors break the limit.
pub fn first_out(i: usize, a: Anchor, j: usize, b: Anchor) -> Option<usize>
    ensures { result ≡ first_out i a j b }
{
    match (a.in_limit(), b.in_limit()) {
        (true, true) => None,
        (true, false) => Some(j),
        (false, true) => Some(i),
        (false, false) => Some(i.min(j)),
    }
}
