// The lines of the calls: what was refused, or which places were recut.
// Kept: codes and answers by themselves, and a call's kind and its refusal by number, as the C interface's replay has these words.
ghost use Rattle.std.specs.Prelude.{◌≡◌, ◌+◌, ◌*◌, ◌≤◌, length};
ghost use Rattle.decimal.specs.Put.{Put, Adds};
ghost use Rattle.call_lines.specs.Lines.{window_of, sub_from, recut_places, recut_text, call_line, call_lines, Sound, SoundAll};

use cut::{Sub, Window};
use decimal::Text;
use printing::add_refused;

// About which index a call recuts, in its subpath as it leaves it, and how far.
#[tactic(auto, unfolding(crate::specs::Lines::window_of))]
fn window_of(which: u32, index: u32) -> Window
    ensures { result ≡ window_of which index }
{
    let i = index as usize;
    // Kept: by number, since a number above 1 counts as a split here, and no other step asks which call it is.
    match which {
        0 => Window { at: i, reach: 3 },
        1 => Window { at: i, reach: 2 },
        _ => Window {
            at: i + 1,
            reach: 4,
        },
    }
}

// A subpath from the place at which it starts and its shape word.
#[tactic(auto, unfolding(crate::specs::Lines::sub_from))]
fn sub_from(first: u32, word: u32) -> Sub
    ensures { result ≡ sub_from first word }
{
    Sub {
        first: first as usize,
        n: path::count_of(word),
        closed: path::closed_of(word),
    }
}

// Puts "recut", and the places of a subpath that are within reach, each after a blank.
// Kept: the reach beside Sound, since Around would say its other two facts again.
fn put_recut(text: &mut Text<'_>, sub: Sub, w: Window)
    requires { Sound sub w × (w.reach ≤ 4) }
    ensures { Adds text.old (recut_text (recut_places sub w)) text.new }
{
    text.put_bytes(b"recut");
    for j in 0..sub.n {
        if cut::near(w.reach, sub.n, sub.closed, w.at, j) {
            text.put(b' ');
            text.put_whole((sub.first + j) as u64);
        }
    }
}

// Puts the line of a call, by words of its code and of its answer. It takes at most 42 bytes.
pub fn put_call(
    text: &mut Text<'_>,
    which: u32,
    index: u32,
    number: u32,
    second: u32,
    first: u32,
    word: u32,
)
    requires { number ≡ 0 → Sound (sub_from first word) (window_of which index) }
    ensures text { Adds text.old (call_line which index number second first word) text.new }
    ensures room { text.new.at ≤ text.old.at + 42 }
{
    let refused = number != 0;
    if refused {
        add_refused(text, number, second as usize);
    } else {
        put_recut(text, sub_from(first, word), window_of(which, index));
    }
    text.put(b'\n');
}

// Puts the lines of m calls, from three words of code each and five words of answer each.
// Kept: m beside the lists, which are lent longer than what they hold.
pub fn put_calls(out: &mut [u8], codes: &[u32], answers: &[u32], m: usize) -> usize
    requires { (m ≤ 256) × (m * 3 ≤ length codes.now) × (m * 5 ≤ length answers.now) × SoundAll codes.now answers.now m }
    ensures text { Put out.old 0 (call_lines codes.now answers.now m) out.new result }
    ensures room { result ≤ m * 42 }
{
    let mut text = Text::new(out);
    let codes = codes[..m * 3].chunks_exact(3);
    let answers = answers[..m * 5].chunks_exact(5);
    for (code, answer) in codes.zip(answers) {
        put_call(
            &mut text, code[0], code[2], answer[0], answer[1], answer[3], answer[4],
        );
    }
    text.len()
}
