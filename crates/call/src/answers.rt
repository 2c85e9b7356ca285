// What a call answers that leaves a path in lent lists.

// How many subpaths and anchors the path has.
#[derive(Clone, Copy, Debug, PartialEq, Eq, Hash)]
pub struct Outline {
    pub subpaths: usize,
    pub anchors: usize,
}
