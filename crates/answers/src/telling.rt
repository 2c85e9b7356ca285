// What a call answered, told to a C caller: the refusal's number, 0 where it was accepted, and four words.
ghost use Rattle.std.specs.Prelude.{◌≡◌, ℕ, List};
ghost use Rattle.answers.specs.Answers.{code, told};

use refusal::Refusal;

// What an accepted call gives, as four words: 0 for the place, then three that its kind of answer names.
pub trait Told: Copy {
    ghost words_of: { Self → List ℕ };

    fn words(self) -> [u64; 4]
        ensures { result ≡ words_of self };
}

// Returns the number and puts the four words.
pub fn tell<T: Told>(answered: Result<T, Refusal>, answer: &mut [u64; 4]) -> u32
    ensures code { result ≡ code answered }
    ensures answer { answer.new ≡ told T.words_of answered }
{
    match answered {
        Ok(given) => {
            *answer = given.words();
            0
        }
        Err(refusal) => {
            *answer = [refusal.place as u64, 0, 0, 0];
            u32::from(refusal.reason)
        }
    }
}
