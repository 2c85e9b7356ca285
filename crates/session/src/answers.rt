// What a cached edit answers.

// How many places were recut, and how many anchors the drawing then has.
#[derive(Clone, Copy, Debug, PartialEq, Eq, Hash)]
pub struct Edited {
    pub recut: usize,
    pub anchors: usize,
}
