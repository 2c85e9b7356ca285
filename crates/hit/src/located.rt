// A place of a path as a subpath and an anchor of it.
ghost use Rattle.std.specs.Prelude.{◌≡◌, ◌<◌};
ghost use Rattle.path.specs.Shape.{total};
ghost use Rattle.hit.specs.Located.{located};

use path::{AnchorRef, count_of};

pub fn locate(shapes: &[u32], k: usize) -> AnchorRef
    requires { k < total shapes.now }
    ensures { result ≡ located shapes.now k }
{
    let mut anchor = k;
    for (subpath, word) in shapes.iter().enumerate() {
        let n = count_of(*word);
        if anchor < n {
            return AnchorRef { subpath, anchor };
        }
        anchor -= n;
    }
    unreachable!()
}
