// `path_corners`, with its refusals: by the lists, the arguments, what is made (at place 0), the output.
// Kept: places and numbers by themselves, in scratch too, as the C interface lends them.
ghost use Rattle.std.specs.Prelude.{◌≡◌, ◌*◌, ◌≤◌, length};
ghost use Rattle.path.specs.Shape.{total};
ghost use Rattle.corner_calls.specs.Corners.{path_corner, corner_places};
ghost use Rattle.corner_calls.specs.Calls.{path_corners_answer, path_corners_places, path_corners_numbers, found_answer, places_held, found_numbers};

use crate::finding::find_corners;
use refusal::{Reason, Refusal};

// The corners of a path, in order: the place of each, and nine numbers: the point, the directions and the lengths of its sides, and the
// largest radius. The answer is how many corners there are.
pub fn path_corners(
    shapes: &[u32],
    anchors: &[f64],
    places: &mut [u32],
    numbers: &mut [f64],
) -> Result<usize, Refusal>
    ensures answer { result ≡ path_corners_answer shapes.now anchors.now places.old numbers.old }
    ensures places { places.new ≡ path_corners_places shapes.now anchors.now places.old numbers.old }
    ensures numbers { numbers.new ≡ path_corners_numbers shapes.now anchors.now places.old numbers.old }
{
    call::open_path(512, shapes, anchors)?;
    list_corners(shapes, anchors, places, numbers)
}

// The corners are found in scratch: refused where a number breaks the limit or a list is too short, else copied.
fn list_corners(
    shapes: &[u32],
    anchors: &[f64],
    places: &mut [u32],
    numbers: &mut [f64],
) -> Result<usize, Refusal>
    requires { (length shapes.now ≤ 32) × (total shapes.now ≤ 512) × (total shapes.now * 6 ≤ length anchors.now) }
    ensures answer { result ≡ found_answer (path_corner shapes.now anchors.now) (corner_places shapes.now anchors.now) places.old numbers.old }
    ensures places { places.new ≡ places_held (path_corner shapes.now anchors.now) (corner_places shapes.now anchors.now) places.old numbers.old }
    ensures numbers { numbers.new ≡ found_numbers (path_corner shapes.now anchors.now) (corner_places shapes.now anchors.now) places.old numbers.old }
{
    let mut at = [0u32; 512];
    let mut rows = [0.0f64; 4608];
    let count = find_corners(shapes, anchors, &mut at, &mut rows);
    if !rows[..count * 9].iter().all(|x| real::in_limit(*x)) {
        return Err(Reason::Made.at(0));
    }
    if places.len() < count {
        return Err(Reason::Output.at(0));
    }
    if numbers.len() < count * 9 {
        return Err(Reason::Output.at(0));
    }
    views::copy(&at, count, places);
    views::copy(&rows, count * 9, numbers);
    Ok(count)
}
