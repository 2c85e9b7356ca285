// Shape words: a word a subpath, its top bit 1 where the subpath is closed, the rest its anchor count.
ghost use Rattle.std.specs.Prelude.{◌≡◌, ◌≤◌, ◌<◌, length};
ghost use Rattle.path.specs.Shape.{count_of, closed_of, word_of, total, start, has_anchor, is_segment, prev, next, sized_of};

// The top bit of a word.
const CLOSED: u32 = 0x8000_0000;

pub fn count_of(word: u32) -> usize
    ensures { result ≡ count_of word }
{
    (word % CLOSED) as usize
}

pub fn closed_of(word: u32) -> bool
    ensures { result ≡ closed_of word }
{
    word >= CLOSED
}

// The shape word of a subpath of n anchors.
pub fn word(n: usize, closed: bool) -> u32
    requires { n ≤ 1024 }
    ensures { result ≡ word_of n closed }
{
    if closed { n as u32 + CLOSED } else { n as u32 }
}

// An anchor by its subpath and its index there; also the segment that starts at it.
#[derive(Clone, Copy, Debug, PartialEq, Eq, Hash)]
pub struct AnchorRef {
    pub subpath: usize,
    pub anchor: usize,
}

// Whether subpath s has an anchor i.
pub fn has_anchor(shapes: &[u32], s: usize, i: usize) -> bool
    ensures { result ≡ has_anchor shapes.now s i }
{
    s < shapes.len() && i < count_of(shapes[s])
}

// Whether a subpath of n anchors has a segment that starts at anchor a.
pub fn has_segment(n: usize, closed: bool, a: usize) -> bool
    ensures { result ≡ is_segment n closed a }
{
    a < n && (a + 1 < n || closed && n > 1)
}

// The index before i, of n, round the start.
pub fn prev(n: usize, i: usize) -> usize
    requires { i < n }
    ensures { result ≡ prev n i }
{
    if i == 0 { n - 1 } else { i - 1 }
}

// The index after i, of n, round the end.
pub fn next(n: usize, i: usize) -> usize
    requires { i < n }
    ensures { result ≡ next n i }
{
    if i + 1 < n { i + 1 } else { 0 }
}

// The anchor count of a path of at most 32 subpaths.
pub fn total_of(shapes: &[u32]) -> usize
    requires { length shapes.now ≤ 32 }
    ensures { result ≡ total shapes.now }
{
    shapes.iter().map(|word| count_of(*word)).sum()
}

// The place of the first anchor of subpath s.
pub fn start_of(shapes: &[u32], s: usize) -> usize
    requires { (s ≤ length shapes.now) × (length shapes.now ≤ 32) }
    ensures { result ≡ start shapes.now s }
{
    total_of(&shapes[..s])
}

// The anchor count of a path of at most 32 subpaths and `most` anchors. No sum wraps, whatever the words are.
pub fn size_test(shapes: &[u32], most: usize) -> Option<usize>
    ensures { result ≡ sized_of shapes.now most }
{
    if shapes.len() > 32 {
        return None;
    }
    let n = total_of(shapes);
    if n > most { None } else { Some(n) }
}
