// A box that grows by one point at a time, lent to the one function that grows it.
ghost use Rattle.std.specs.Prelude.{◌≡◌};
ghost use Rattle.geom.specs.Box.{grown};

use geom::{Bounds, P};

// Kept: the project's rule names this form of the box, lent by `&mut` to one thin function; by value it is `Bounds::add`.
pub fn add(b: &mut Bounds, p: P)
    ensures { b.new ≡ grown b.old p }
{
    *b = b.add(p);
}
