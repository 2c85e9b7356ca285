// `transform`, with its refusals: 7, 5 (a number of the map at the anchor count), 9, 8.
ghost use Rattle.std.specs.Prelude.{◌≡◌};
ghost use Rattle.transform.specs.Call.{transform_answer, transform_shapes, transform_anchors};

use crate::mapping::{map_anchors, map_in_limit};
use crate::reach::all_but_room;
use call::Outline;
use refusal::{Reason, Refusal};

// The path with every anchor mapped, its shape words as they are. Where refusals 7, 5 and 9 are found not to come, it is written at once.
pub fn transform(
    shapes: &[u32],
    anchors: &[f64],
    m: [f64; 6],
    to_shapes: &mut [u32],
    to: &mut [f64],
) -> Result<Outline, Refusal>
    ensures answer { result ≡ transform_answer shapes.now anchors.now m to_shapes.old to.old }
    ensures shapes { to_shapes.new ≡ transform_shapes shapes.now anchors.now m to_shapes.old to.old }
    ensures anchors { to.new ≡ transform_anchors shapes.now anchors.now m to_shapes.old to.old }
{
    if !all_but_room(shapes, anchors, m) {
        return by_scratch(shapes, anchors, m, to_shapes, to);
    }
    let count = path::total_of(shapes);
    if to_shapes.len() < shapes.len() || to.len() < count * 6 {
        return Err(Reason::Output.at(0));
    }
    views::copy(shapes, shapes.len(), to_shapes);
    map_anchors(m, anchors, count, to);
    Ok(Outline {
        subpaths: shapes.len(),
        anchors: count,
    })
}

// The same for any path and map: test by test, the result first in a list of its own.
fn by_scratch(
    shapes: &[u32],
    anchors: &[f64],
    m: [f64; 6],
    to_shapes: &mut [u32],
    to: &mut [f64],
) -> Result<Outline, Refusal>
    ensures answer { result ≡ transform_answer shapes.now anchors.now m to_shapes.old to.old }
    ensures shapes { to_shapes.new ≡ transform_shapes shapes.now anchors.now m to_shapes.old to.old }
    ensures anchors { to.new ≡ transform_anchors shapes.now anchors.now m to_shapes.old to.old }
{
    let count = call::open_path(512, shapes, anchors)?;
    if !map_in_limit(m) {
        return Err(Reason::Arguments.at(count));
    }
    let mut made = [0.0f64; 3072];
    map_anchors(m, anchors, count, &mut made);
    call::hand_over(shapes, &made, to_shapes, to)
}
