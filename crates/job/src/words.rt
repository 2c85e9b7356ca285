// The words of a job file, lowest byte first, and the numbers that they hold.
ghost use Rattle.std.specs.Prelude.{◌≡◌, ◌+◌, ◌*◌, ◌≤◌, length};
ghost use Rattle.job.specs.Words.{word_at};
ghost use Rattle.job.specs.Number.{number};

use crate::kinds::Kind;

// A word that has passed its test: its top four bits as a kind, and the other 28.
#[derive(Clone, Copy, Debug, PartialEq, Eq, Hash)]
pub struct Word {
    pub kind: Kind,
    pub payload: u32,
}

// Word i of a file.
#[tactic(auto, unfolding(crate::specs::Words::word_at))]
pub fn word_at(bytes: &[u8], i: usize) -> u32
    requires { i * 4 + 4 ≤ length bytes.now }
    ensures { result ≡ word_at bytes.now i }
{
    let b = i * 4;
    u32::from_le_bytes([bytes[b], bytes[b + 1], bytes[b + 2], bytes[b + 3]])
}

// A payload as millimetres: 28 bits of two's complement, in units of 1/1024. Both steps are exact.
#[tactic(auto, unfolding(crate::specs::Number::number))]
pub fn number(payload: u32) -> f64
    requires { payload ≤ 268435456 }
    ensures { result ≡ number payload }
{
    // Kept: by halves, since 2^28, which the contract allows, is -0.0, and no signed whole number is that.
    if payload < 134217728 {
        payload as f64 / 1024.0
    } else {
        -((268435456 - payload) as f64 / 1024.0)
    }
}
