// `assemble`, with its refusals: 7, 9 at the index in the assembled path, 8.
// Kept: numbers and flags by themselves, as the C interface lends them.
ghost use Rattle.std.specs.Prelude.{◌≡◌};
ghost use Rattle.cache.specs.Calls.{assemble_answer, assemble_shapes, assemble_anchors};

use crate::sizes::size_test;
use call::Outline;
use refusal::{Reason, Refusal};

// The cut outline that a cache holds, in the order in which `cut_corners` pushes its anchors. Of a flag only the top bit is read.
pub fn assemble(
    shapes: &[u32],
    numbers: &[f64],
    flags: &[u32],
    to_shapes: &mut [u32],
    to: &mut [f64],
) -> Result<Outline, Refusal>
    ensures answer { result ≡ assemble_answer shapes.now numbers.now flags.now to_shapes.old to.old }
    ensures shapes { to_shapes.new ≡ assemble_shapes shapes.now numbers.now flags.now to_shapes.old to.old }
    ensures anchors { to.new ≡ assemble_anchors shapes.now numbers.now flags.now to_shapes.old to.old }
{
    let Some(places) = size_test(shapes, numbers, flags) else {
        return Err(Reason::Lists.at(0));
    };
    // Clearing the larger scratch would take longer than the rest.
    // Kept: an array in each arm, since without a heap its size is fixed where it is made.
    if places <= 32 {
        let mut made = [0.0f64; 384];
        cut_calls::hand_over(shapes, numbers, flags, &mut made, to_shapes, to)
    } else {
        let mut made = [0.0f64; 6144];
        cut_calls::hand_over(shapes, numbers, flags, &mut made, to_shapes, to)
    }
}
