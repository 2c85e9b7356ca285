// The kinds of a job's words, and their numbers.
ghost use Rattle.job.specs.Kinds.{Names};

// What a word says of a drawing.
#[derive(Clone, Copy, Debug, PartialEq, Eq, Hash)]
pub enum Kind {
    // The kind of corner, and the first word.
    Head,
    // A subpath begins, open or closed.
    Subpath,
    // An anchor's point; its x begins the anchor.
    X,
    Y,
    // The anchor's handle in.
    InX,
    InY,
    // The anchor's handle out.
    OutX,
    OutY,
    // The anchor's radius.
    Radius,
    // The last word.
    End,
}

// A number that names no kind.
#[derive(Clone, Copy, Debug, PartialEq, Eq, Hash)]
pub struct UnknownKind;

impl TryFrom<u32> for Kind {
    type Error = UnknownKind;

    ghost try_from_gives = { Names };

    fn try_from(number: u32) -> Result<Self, UnknownKind> {
        match number {
            0 => Ok(Kind::Head),
            1 => Ok(Kind::Subpath),
            2 => Ok(Kind::X),
            3 => Ok(Kind::Y),
            4 => Ok(Kind::InX),
            5 => Ok(Kind::InY),
            6 => Ok(Kind::OutX),
            7 => Ok(Kind::OutY),
            8 => Ok(Kind::Radius),
            15 => Ok(Kind::End),
            _ => Err(UnknownKind),
        }
    }
}
