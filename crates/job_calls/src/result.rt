// The answer of the call.

// What was read: the kind of corner (0 round, 1 inverted, 2 chamfer), and how many subpaths and anchors.
#[derive(Clone, Copy, Debug, PartialEq, Eq, Hash)]
pub struct Read {
    // Kept: a number, since it is passed on to `cut_corners`, which takes any u32; a narrower type there would ask more of its callers.
    pub kind: u32,
    pub subpaths: usize,
    pub anchors: usize,
}
