// The first tests of a call on a path: refusals 7 and 5.
// Kept: anchors and radii by themselves, as the C interface lends them.
ghost use Rattle.std.specs.Prelude.{◌≡◌, ◌≤◌};
ghost use Rattle.call.specs.Tests.{sized_path, opened_path, opened_drawing};

use refusal::{Reason, Refusal};

// 7 alone: how many anchors, of at most `most`, with six numbers for each.
fn size_path(most: usize, shapes: &[u32], anchors: &[f64]) -> Result<usize, Refusal>
    requires { most ≤ 1024 }
    ensures { result ≡ sized_path most shapes.now anchors.now }
{
    match path::size_test(shapes, most) {
        Some(n) if n * 6 <= anchors.len() => Ok(n),
        _ => Err(Reason::Lists.at(0)),
    }
}

// How many anchors a path has, of at most `most`, which is 512 or 1,024.
pub fn open_path(most: usize, shapes: &[u32], anchors: &[f64]) -> Result<usize, Refusal>
    requires { most ≤ 1024 }
    ensures { result ≡ opened_path most shapes.now anchors.now }
{
    let n = size_path(most, shapes, anchors)?;
    match path::first_bad_anchor(shapes, anchors) {
        Some(k) => Err(Reason::Arguments.at(k)),
        None => Ok(n),
    }
}

// How many anchors a drawing has: a path of at most 512 anchors, and a radius for each.
pub fn open_drawing(shapes: &[u32], anchors: &[f64], radii: &[f64]) -> Result<usize, Refusal>
    ensures { result ≡ opened_drawing shapes.now anchors.now radii.now }
{
    let n = size_path(512, shapes, anchors)?;
    if radii.len() < n {
        return Err(Reason::Lists.at(0));
    }
    match path::first_bad_place(shapes, anchors, radii) {
        Some(k) => Err(Reason::Arguments.at(k)),
        None => Ok(n),
    }
}
