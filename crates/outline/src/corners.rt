// The exported call that lists a path's corners.
ghost use Rattle.std.specs.Prelude.{◌≡◌};
ghost use Rattle.corner_calls.specs.Calls.{path_corners_answer, path_corners_places, path_corners_numbers};
ghost use Rattle.answers.specs.Answers.{code, told, count_words};

use answers::tell;

#[unsafe(no_mangle)]
pub extern "C" fn outline_path_corners(
    shapes: &[u32],
    anchors: &[f64],
    places: &mut [u32],
    numbers: &mut [f64],
    answer: &mut [u64; 4],
) -> u32
    ensures code { result ≡ code (path_corners_answer shapes.now anchors.now places.old numbers.old) }
    ensures answer { answer.new ≡ told count_words (path_corners_answer shapes.now anchors.now places.old numbers.old) }
    ensures places { places.new ≡ path_corners_places shapes.now anchors.now places.old numbers.old }
    ensures numbers { numbers.new ≡ path_corners_numbers shapes.now anchors.now places.old numbers.old }
{
    let a = corner_calls::path_corners(shapes, anchors, places, numbers);
    tell(a, answer)
}
