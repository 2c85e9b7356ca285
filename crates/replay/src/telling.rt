// The five words of an answer.
ghost use Rattle.std.specs.Prelude.{◌≡◌, ◌+◌, ◌*◌, ◌≤◌, length};
ghost use Rattle.std.proofs.lemmas.List.Edits.{sets};
ghost use Rattle.replay.specs.Encoding.{answer_words, Small};

use refusal::Refusal;
use session::Edited;

// What a call on subpath s was answered, with the shape words as it left them.
fn words_of(answered: Result<Edited, Refusal>, shapes: &[u32], s: usize) -> [u32; 5]
    requires { Small answered shapes.now s }
    ensures { result ≡ answer_words answered shapes.now s }
{
    match answered {
        Err(why) => [u32::from(why.reason), why.place as u32, 0, 0, 0],
        Ok(edited) => [
            0,
            edited.recut as u32,
            edited.anchors as u32,
            path::start_of(shapes, s) as u32,
            shapes[s],
        ],
    }
}

// The same as answer j.
pub fn put_answer(
    answers: &mut [u32],
    j: usize,
    answered: Result<Edited, Refusal>,
    shapes: &[u32],
    s: usize,
)
    requires { (j * 5 + 5 ≤ length answers.old) × Small answered shapes.now s }
    ensures { answers.new ≡ sets answers.old (j * 5) (answer_words answered shapes.now s) }
{
    answers[j * 5..j * 5 + 5].copy_from_slice(&words_of(answered, shapes, s));
}
