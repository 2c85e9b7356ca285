// `delete`, with its refusals: 7, 5, 6.
ghost use Rattle.std.specs.Prelude.{◌≡◌};
ghost use Rattle.removal.specs.Deleted.{delete_answer, delete_shapes_left, delete_anchors_left};

use crate::marking::marks;
use crate::moving::move_down;
use call::Outline;
use refusal::{Reason, Refusal};

// Deletes the anchors that `which` names, pairs of a subpath and an anchor of it; then every subpath of fewer than 3 anchors,
// or 2 where it is open.
pub fn delete(shapes: &mut [u32], anchors: &mut [f64], which: &[u32]) -> Result<Outline, Refusal>
    ensures answer { result ≡ delete_answer shapes.old anchors.old which.now }
    ensures shapes { shapes.new ≡ delete_shapes_left shapes.old anchors.old which.now }
    ensures anchors { anchors.new ≡ delete_anchors_left shapes.old anchors.old which.now }
{
    if which.len() % 2 != 0 {
        return Err(Reason::Lists.at(0));
    }
    call::open_path(512, shapes, anchors)?;
    let Some(gone) = marks(shapes, which) else {
        return Err(Reason::Reference.at(0));
    };
    Ok(move_down(shapes, anchors, &gone))
}
