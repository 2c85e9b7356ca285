// The first tests of a call on a drawing and its cache: refusals 7, 5 and 6.
// Kept: anchors and radii, numbers and flags by themselves, as the C interface lends them.
ghost use Rattle.std.specs.Prelude.{◌≡◌, ◌≤◌, ◌<◌, length};
ghost use Rattle.cut_calls.specs.PlainCut.{sub_at};
ghost use Rattle.edit.specs.Split.{has_segment};
ghost use Rattle.cached.specs.Opening.{lent, opened_cached, ready_of};

use corner::CornerKind;
use cut::Sub;
use refusal::{Reason, Refusal};

// 7 over the drawing's lists and the cache's, then 5 over the drawing: how many anchors it has.
pub fn open_cached(
    shapes: &[u32],
    anchors: &[f64],
    radii: &[f64],
    numbers: &[f64],
    flags: &[u32],
) -> Result<usize, Refusal>
    ensures { result ≡ opened_cached (lent shapes.now anchors.now radii.now numbers.now flags.now) }
{
    if cache::size_test(shapes, numbers, flags).is_none() {
        return Err(Reason::Lists.at(0));
    }
    call::open_drawing(shapes, anchors, radii)
}

// A drawing to be edited: how many anchors it has, and the kind of its cuts.
#[derive(Clone, Copy, Debug, PartialEq, Eq, Hash)]
pub struct Ready {
    pub anchors: usize,
    pub kind: CornerKind,
}

// The same for an edit: 5 also where the kind is not known, or the edit's own numbers are not `loose`ly within the limit.
// Kept: loose as a flag, since the test is the caller's: each edit has numbers of its own.
pub fn open_edit(
    shapes: &[u32],
    anchors: &[f64],
    radii: &[f64],
    kind: u32,
    numbers: &[f64],
    flags: &[u32],
    loose: bool,
) -> Result<Ready, Refusal>
    ensures { result ≡ ready_of (lent shapes.now anchors.now radii.now numbers.now flags.now) kind loose }
{
    let n = open_cached(shapes, anchors, radii, numbers, flags)?;
    let Ok(way) = CornerKind::try_from(kind) else {
        return Err(Reason::Arguments.at(n));
    };
    if !loose {
        return Err(Reason::Arguments.at(n));
    }
    Ok(Ready {
        anchors: n,
        kind: way,
    })
}

// Whether a segment starts at anchor a of subpath s.
pub fn has_segment(shapes: &[u32], s: usize, a: usize) -> bool
    ensures { result ≡ has_segment shapes.now s a }
{
    s < shapes.len() && path::has_segment(path::count_of(shapes[s]), path::closed_of(shapes[s]), a)
}

// Subpath s.
pub fn sub_at(shapes: &[u32], s: usize) -> Sub
    requires { (s < length shapes.now) × (length shapes.now ≤ 32) }
    ensures { result ≡ sub_at shapes.now s }
{
    Sub {
        first: path::start_of(shapes, s),
        n: path::count_of(shapes[s]),
        closed: path::closed_of(shapes[s]),
    }
}
