// The reader: refusal 1 for the length, then each word in turn, then 8. Nothing lent is written before all of them have passed.
// Kept: shapes, anchors and radii by themselves, as the C interface lends them; four bytes a word, six numbers an anchor, as a job has them.
ghost use Rattle.std.specs.Prelude.{◌≡◌, ◌+◌, ◌*◌, ◌≤◌, Ok, length, get_or};
ghost use Rattle.views.specs.View.{entry};
ghost use Rattle.job.specs.Words.{word_at, words_of, word_list};
ghost use Rattle.job.specs.Order.{tested, Fair};
ghost use Rattle.job.specs.Reading.{placed, scanned};
ghost use Rattle.job.specs.Lists.{lay_shapes, lay_numbers, lay_radii};
ghost use Rattle.job.specs.declared.order.Seen as seen_type;
ghost use Rattle.job_calls.specs.Call.{room_in, handed, handed_answer, answer_read, shapes_read, anchors_read, radii_read};

use crate::lists::Lists;
use crate::result::Read;
use job::{Seen, Word, word_at};
use refusal::{Reason, Refusal};

// Word i of a file, or the refusal that it meets after what was seen.
fn word_after(seen: &Seen, bytes: &[u8], i: usize) -> Result<Word, Refusal>
    requires { i * 4 + 4 ≤ length bytes.now }
    ensures { result ≡ placed i (tested seen.now (word_at bytes.now i)) }
{
    seen.test(word_at(bytes, i)).map_err(|reason| reason.at(i))
}

// Reads the words of a file of whole words into lists that have room for any job.
fn read_words(bytes: &[u8], lists: &mut Lists) -> Result<Seen, Refusal>
    ensures answer { result ≡ scanned (words_of bytes.now) }
    ensures shapes { (s : seen_type.Seen) → result ≡ Ok s → lists.new.shapes ≡ lay_shapes 0 0 (word_list (words_of bytes.now)) lists.old.shapes }
    ensures numbers { (s : seen_type.Seen) → result ≡ Ok s → lists.new.numbers ≡ lay_numbers 0 (word_list (words_of bytes.now)) lists.old.numbers }
    ensures radii { (s : seen_type.Seen) → result ≡ Ok s → lists.new.radii ≡ lay_radii 0 (word_list (words_of bytes.now)) lists.old.radii }
{
    let mut seen = Seen::start();
    // Kept: by index, since a chunk of four bytes would have to be read as word 0 of itself, and its number counted beside it.
    for i in 0..bytes.len() / 4 {
        let word = word_after(&seen, bytes, i)?;
        seen.advance(word);
        lists.put_shape(&seen, word);
        lists.put_number(&seen, word);
        lists.put_radius(&seen, word);
    }
    if seen.is_ended() {
        Ok(seen)
    } else {
        Err(Reason::Unended.at(bytes.len() / 4))
    }
}

// Whether lent lists have room for what was read.
#[tactic(auto, unfolding(crate::specs::Call::room_for))]
fn has_room(seen: &Seen, shapes: &[u32], anchors: &[f64], radii: &[f64]) -> bool
    requires { Fair seen.now }
    ensures { result ≡ room_in seen.now shapes.now anchors.now radii.now }
{
    seen.subpaths <= shapes.len()
        && seen.anchors * 6 <= anchors.len()
        && seen.anchors <= radii.len()
}

// Copies what was read to lent lists that have room for it.
#[tactic(auto, using(crate::proofs::Outcomes::roomy), unfolding(crate::specs::Call::handed, crate::specs::Call::handed_answer))]
fn hand_over(
    seen: &Seen,
    lists: &Lists,
    shapes: &mut [u32],
    anchors: &mut [f64],
    radii: &mut [f64],
) -> Result<Read, Refusal>
    requires { Fair seen.now }
    ensures answer { result ≡ handed_answer (room_in seen.now shapes.old anchors.old radii.old) seen.now }
    ensures shapes { shapes.new ≡ handed (room_in seen.now shapes.old anchors.old radii.old) seen.now.subpaths (λ i. get_or lists.now.shapes i 0) shapes.old }
    ensures anchors { anchors.new ≡ handed (room_in seen.now shapes.old anchors.old radii.old) (seen.now.anchors * 6) (entry lists.now.numbers) anchors.old }
    ensures radii { radii.new ≡ handed (room_in seen.now shapes.old anchors.old radii.old) seen.now.anchors (entry lists.now.radii) radii.old }
{
    if !has_room(seen, shapes, anchors, radii) {
        return Err(Reason::Output.at(0));
    }
    views::copy(&lists.shapes, seen.subpaths, shapes);
    views::copy(&lists.numbers, seen.anchors * 6, anchors);
    views::copy(&lists.radii, seen.anchors, radii);
    Ok(Read {
        kind: seen.head,
        subpaths: seen.subpaths,
        anchors: seen.anchors,
    })
}

// Reads a job file of any length into a drawing's lists: shape words, six numbers an anchor, a radius an anchor.
pub fn read(
    bytes: &[u8],
    shapes: &mut [u32],
    anchors: &mut [f64],
    radii: &mut [f64],
) -> Result<Read, Refusal>
    ensures answer { result ≡ answer_read bytes.now shapes.old anchors.old radii.old }
    ensures shapes { shapes.new ≡ shapes_read bytes.now shapes.old anchors.old radii.old }
    ensures anchors { anchors.new ≡ anchors_read bytes.now shapes.old anchors.old radii.old }
    ensures radii { radii.new ≡ radii_read bytes.now shapes.old anchors.old radii.old }
{
    if bytes.len() % 4 != 0 {
        return Err(Reason::Unended.at(bytes.len() / 4));
    }
    let mut lists = Lists::new();
    let seen = read_words(bytes, &mut lists)?;
    hand_over(&seen, &lists, shapes, anchors, radii)
}
