// The number that a word of a call holds.
ghost use Rattle.std.specs.Prelude.{◌≡◌};
ghost use Rattle.call_list.specs.Number.{number_of};

// A word as a number: two's complement, in units of 1/1024. Both steps are exact.
#[tactic(auto, unfolding(crate::specs::Number::number_of))]
pub fn number_of(word: u32) -> f64
    ensures { result ≡ number_of word }
{
    f64::from(word.cast_signed()) / 1024.0
}
