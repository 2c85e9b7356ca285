// Places put together to an outline, in lent lists: refusals 9 and 8.
// Kept: numbers and flags by themselves, as the C interface lends them.
ghost use Rattle.std.specs.Prelude.{◌≡◌, ◌*◌, ◌≤◌, length};
ghost use Rattle.path.specs.Shape.{total};
ghost use Rattle.assembly.specs.Assembled.{place_read, outline_of, outline_shapes};
ghost use Rattle.cut_calls.specs.Made.{made_answer, made_shapes, made_anchors};

use call::Outline;
use refusal::Refusal;

// The outline of these places is put together in `made`, which is scratch, and handed over.
pub fn hand_over(
    shapes: &[u32],
    numbers: &[f64],
    flags: &[u32],
    made: &mut [f64],
    to_shapes: &mut [u32],
    to: &mut [f64],
) -> Result<Outline, Refusal>
    requires { (length shapes.now ≤ 32) × (total shapes.now ≤ 512) × (total shapes.now * 12 ≤ length numbers.now) × (total shapes.now ≤ length flags.now) × (total shapes.now * 12 ≤ length made.old) }
    ensures answer { result ≡ made_answer (length shapes.now) (outline_of shapes.now (place_read numbers.now flags.now)) to_shapes.old to.old }
    ensures shapes { to_shapes.new ≡ made_shapes (length shapes.now) (outline_of shapes.now (place_read numbers.now flags.now)) (outline_shapes shapes.now (place_read numbers.now flags.now)) to_shapes.old to.old }
    ensures anchors { to.new ≡ made_anchors (length shapes.now) (outline_of shapes.now (place_read numbers.now flags.now)) to_shapes.old to.old }
{
    let mut words = [0u32; 32];
    assembly::assemble(shapes, numbers, flags, &mut words, made);
    call::hand_over(&words[..shapes.len()], made, to_shapes, to)
}
