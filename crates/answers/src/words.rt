// The four words of each kind of answer: the place, a count or an anchor, the subpaths or a subpath, and a last one.
ghost use Rattle.answers.specs.Answers.{number_words, point_words, count_words, outline_words, edited_words, hit_anchor_words, hit_segment_words, bounds_words, job_words};

use crate::telling::Told;
use call::Outline;
use geom::{Bounds, P};
use hit::SegmentAt;
use job_calls::Read;
use path::AnchorRef;
use session::Edited;

// A number, which is lent room of its own.
impl Told for f64 {
    ghost words_of = { number_words };

    fn words(self) -> [u64; 4] {
        [0; 4]
    }
}

// A point, one.
impl Told for P {
    ghost words_of = { point_words };

    fn words(self) -> [u64; 4] {
        [0, 1, 0, 0]
    }
}

// How many.
impl Told for usize {
    ghost words_of = { count_words };

    fn words(self) -> [u64; 4] {
        [0, self as u64, 0, 0]
    }
}

impl Told for Outline {
    ghost words_of = { outline_words };

    fn words(self) -> [u64; 4] {
        [0, self.anchors as u64, self.subpaths as u64, 0]
    }
}

impl Told for Edited {
    ghost words_of = { edited_words };

    fn words(self) -> [u64; 4] {
        [0, self.anchors as u64, 0, self.recut as u64]
    }
}

impl Told for Read {
    ghost words_of = { job_words };

    fn words(self) -> [u64; 4] {
        let Read {
            kind,
            subpaths,
            anchors,
        } = self;
        [0, anchors as u64, subpaths as u64, kind as u64]
    }
}

impl Told for Option<AnchorRef> {
    ghost words_of = { hit_anchor_words };

    fn words(self) -> [u64; 4] {
        match self {
            Some(at) => [0, at.anchor as u64, at.subpath as u64, 1],
            None => [0; 4],
        }
    }
}

impl Told for Option<SegmentAt> {
    ghost words_of = { hit_segment_words };

    fn words(self) -> [u64; 4] {
        match self {
            Some(at) => [0, at.anchor as u64, at.subpath as u64, 1],
            None => [0; 4],
        }
    }
}

// A box, one.
impl Told for Option<Bounds> {
    ghost words_of = { bounds_words };

    fn words(self) -> [u64; 4] {
        [0, self.is_some() as u64, 0, 0]
    }
}
