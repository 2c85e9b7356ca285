// The list of calls at the start of the input: how many, then nine words a call.
// Kept: codes and values by themselves, as the C interface lends them to replay.
ghost use Rattle.std.specs.Prelude.{◌≡◌, ℕ, ◌+◌, ◌*◌, ◌/◌, ◌≤◌, ◌<◌, length};
ghost use Rattle.views.specs.View.{overwrite};
ghost use Rattle.call_list.specs.Input.{list_fits, code_at, value_at, calls_answer, codes_left, values_left};

use crate::number::number_of;
use refusal::{Reason, Refusal};

// Entry k of the codes, three a call: which, subpath, index.
#[tactic(auto, unfolding(crate::specs::Input::code_at))]
fn code(bytes: &[u8], k: usize) -> u32
    requires { (k < 768) × (40 + k / 3 * 36 ≤ length bytes.now) }
    ensures { result ≡ code_at bytes.now k }
{
    job::word_at(bytes, 1 + k / 3 * 9 + k % 3)
}

// Entry k of the values, six a call.
#[tactic(auto, unfolding(crate::specs::Input::value_at))]
fn value(bytes: &[u8], k: usize) -> f64
    requires { (k < 1536) × (40 + k / 6 * 36 ≤ length bytes.now) }
    ensures { result ≡ value_at bytes.now k }
{
    number_of(job::word_at(bytes, 4 + k / 6 * 9 + k % 6))
}

// Fills a list.
fn fill<T: Copy, F: Fn(usize) -> T>(list: &mut [T], entry: F)
    requires { (k : ℕ) → k < length list.old → F.pre entry k }
    ensures { (f : ℕ → T) → ((k : ℕ) (x : T) → k < length list.old → F.post entry k x → x ≡ f k) → list.new ≡ overwrite (length list.old) f list.old }
{
    // Kept: by index, since a proof learns only the length of what iter_mut leaves.
    for k in 0..list.len() {
        list[k] = entry(k);
    }
}

// Whether there are at most 256 calls, and all their words are there.
#[tactic(auto, using(crate::proofs::Inputs::many_unfit, crate::proofs::Inputs::short_unfit, crate::proofs::Inputs::few_fit), unfolding(crate::specs::Input::count_in))]
fn list_fits(bytes: &[u8]) -> bool
    ensures { result ≡ list_fits bytes.now }
{
    if bytes.len() < 4 {
        return false;
    }
    let m = job::word_at(bytes, 0) as usize;
    if m > 256 {
        return false;
    }
    4 + m * 36 <= bytes.len()
}

// Reads the calls at the start of the input: refused as unended where there are more than 256, or fewer bytes than they take. The answer
// is how many calls were read.
pub fn read_calls(
    bytes: &[u8],
    codes: &mut [u32; 768],
    values: &mut [f64; 1536],
) -> Result<usize, Refusal>
    ensures answer { result ≡ calls_answer bytes.now }
    ensures codes { codes.new ≡ codes_left bytes.now codes.old }
    ensures values { values.new ≡ values_left bytes.now values.old }
{
    if !list_fits(bytes) {
        return Err(Reason::Unended.at(bytes.len() / 4));
    }
    let m = job::word_at(bytes, 0) as usize;
    fill(&mut codes[..m * 3], |k| code(bytes, k));
    fill(&mut values[..m * 6], |k| value(bytes, k));
    Ok(m)
}
