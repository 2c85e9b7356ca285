// Why a call refuses, and where: document 01's refusals ('Who can cause a refusal'). specs/Order.antt has the order in which every call on
// outlines tests for them.
#![tactic(auto)]

ghost use Rattle.std.specs.Prelude.{◌≡◌};
ghost use Rattle.refusal.specs.Reasons.{number_of, refusal_at};

// Why a call refuses.
#[derive(Clone, Copy, Debug, PartialEq, Eq, Hash)]
pub enum Reason {
    // A job ends before its end word, or goes on after it.
    Unended,
    // A word of a job may not stand where it does.
    Misplaced,
    // A job has no outline.
    Empty,
    // A job has more subpaths or anchors than a drawing may.
    Full,
    // A number that the caller gave is not finite, or beyond the limit.
    Arguments,
    // There is no such subpath, anchor or segment.
    Reference,
    // A list has too many entries, or too few for what it stands for.
    Lists,
    // A list that was lent for the result is too short.
    Output,
    // A number of the result is not finite, or beyond the limit.
    Made,
    // The result would have more anchors than a path may.
    Capacity,
}

impl From<Reason> for u32 {
    ghost from_gives = { λ r n. n ≡ number_of r };

    fn from(reason: Reason) -> u32 {
        match reason {
            Reason::Unended => 1,
            Reason::Misplaced => 2,
            Reason::Empty => 3,
            Reason::Full => 4,
            Reason::Arguments => 5,
            Reason::Reference => 6,
            Reason::Lists => 7,
            Reason::Output => 8,
            Reason::Made => 9,
            Reason::Capacity => 10,
        }
    }
}

// A refusal: why, and at which place of what was given or made.
#[derive(Clone, Copy, Debug, PartialEq, Eq, Hash)]
pub struct Refusal {
    pub reason: Reason,
    pub place: usize,
}

impl Reason {
    pub fn at(self, place: usize) -> Refusal
        ensures { result ≡ refusal_at self place }
    {
        Refusal {
            reason: self,
            place,
        }
    }
}
