// The text of a refusal.
ghost use Rattle.std.specs.Prelude.{◌+◌, ◌≤◌};
ghost use Rattle.decimal.specs.Put.{Put, Adds};
ghost use Rattle.refusal.specs.Reasons.{number_of};
ghost use Rattle.printing.specs.Refused.{refused_text};

use decimal::Text;
use refusal::Refusal;

// Puts "refused ", a number, a blank and a place at the end of a text.
pub fn add_refused(text: &mut Text<'_>, number: u32, place: usize)
    ensures text { Adds text.old (refused_text number place) text.new }
    ensures room { text.new.at ≤ text.old.at + 39 }
{
    text.put_bytes(b"refused ");
    text.put_whole(u64::from(number));
    text.put(b' ');
    text.put_whole(place as u64);
}

// Puts it at the start of a list.
// Kept: number and place, beside `put_refusal`, since a caller may have them from elsewhere; a `Refusal` alone would ask more.
pub fn put_refused(out: &mut [u8], number: u32, place: usize) -> usize
    ensures { Put out.old 0 (refused_text number place) out.new result }
{
    let mut text = Text::new(out);
    add_refused(&mut text, number, place);
    text.len()
}

// The same of a refusal, by its number.
pub fn put_refusal(out: &mut [u8], why: Refusal) -> usize
    ensures { Put out.old 0 (refused_text (number_of why.reason) why.place) out.new result }
{
    put_refused(out, u32::from(why.reason), why.place)
}
