// What can be bent in a subpath.
ghost use Rattle.std.specs.Prelude.{◌≡◌};
ghost use Rattle.bend.specs.Edits.{has_bend};

// Whether subpath s has a segment from anchor a, or a is its only anchor.
pub fn has_bend(shapes: &[u32], s: usize, a: usize) -> bool
    ensures { result ≡ has_bend shapes.now s a }
{
    let Some(word) = shapes.get(s) else {
        return false;
    };
    let n = path::count_of(*word);
    if n == 1 {
        a == 0
    } else {
        path::has_segment(n, path::closed_of(*word), a)
    }
}
