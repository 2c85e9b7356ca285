// What the cut leaves at an anchor, and of a segment.
use geom::P;
use path::Anchor;

// A segment's handles, as the cuts at its ends leave them: out of its first anchor, into its second.
#[derive(Clone, Copy, Debug, PartialEq)]
pub struct Trim {
    pub out: P,
    pub into: P,
}

// The flag of a place that is cut: the top bit.
pub const CUT_FLAG: u32 = 0x8000_0000;

// What the cut leaves at an anchor. Uncut: the anchor, handles trimmed, and six zeros. Cut: the cut's start and end.
// Kept: a flag and two anchors, since the C interface's lists have a flag and twelve numbers a place, whether it is cut or not.
#[derive(Clone, Copy, Debug, PartialEq)]
pub struct Place {
    pub cut: bool,
    pub start: Anchor,
    pub end: Anchor,
}
