// `CallKind`: the calls that a list holds.
ghost use Rattle.std.specs.Prelude.{◌≡◌};
ghost use Rattle.std.specs.Option.{ok_or};
ghost use Rattle.replay.specs.Kinds.{call_kind};

#[derive(Clone, Copy, Debug, PartialEq, Eq, Hash)]
pub enum CallKind {
    // An anchor is moved to six numbers.
    Move,
    // Its radius is set to the first of them.
    Radius,
    // The segment from it is split at the first of them.
    Split,
}

// A number that is no kind's.
#[derive(Clone, Copy, Debug, PartialEq, Eq, Hash)]
pub struct UnknownKind {
    pub number: u32,
}

// By a call's first word.
impl TryFrom<u32> for CallKind {
    type Error = UnknownKind;

    ghost try_from_gives = { λ number r. r ≡ ok_or (call_kind number) (record { number = number }) };

    fn try_from(number: u32) -> Result<CallKind, UnknownKind> {
        match number {
            0 => Ok(CallKind::Move),
            1 => Ok(CallKind::Radius),
            2 => Ok(CallKind::Split),
            _ => Err(UnknownKind { number }),
        }
    }
}
