// `CornerKind`: the ways to cut a corner.
ghost use Rattle.std.specs.Prelude.{◌≡◌};
ghost use Rattle.std.specs.Option.{ok_or};
ghost use Rattle.corner.specs.Kinds.{kind_of};

#[derive(Clone, Copy, Debug, PartialEq, Eq, Hash)]
pub enum CornerKind {
    // An arc tangent to both sides.
    Round,
    // An arc centred on the corner.
    Inverted,
    // A straight cut.
    Chamfer,
}

// A number that is no kind's.
#[derive(Clone, Copy, Debug, PartialEq, Eq, Hash)]
pub struct UnknownKind {
    pub number: u32,
}

// By document 01's numbers.
impl TryFrom<u32> for CornerKind {
    type Error = UnknownKind;

    ghost try_from_gives = { λ number r. r ≡ ok_or (kind_of number) (record { number = number }) };

    fn try_from(number: u32) -> Result<CornerKind, UnknownKind> {
        match number {
            0 => Ok(CornerKind::Round),
            1 => Ok(CornerKind::Inverted),
            2 => Ok(CornerKind::Chamfer),
            _ => Err(UnknownKind { number }),
        }
    }
}
