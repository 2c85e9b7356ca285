// Bytes put into a lent list from a place on, which may lie past its end. Each answers the place after them.
ghost use Rattle.std.specs.Prelude.{◌+◌, ◌^◌, ◌<◌, [], ◌∷◌, length};
ghost use Rattle.decimal.specs.Put.{Put};

use crate::text::Text;

// Puts a byte.
pub fn put(out: &mut [u8], at: usize, b: u8) -> usize
    requires { at + 1 < 2 ^ 64 }
    ensures { Put out.old at (b ∷ []) out.new result }
{
    let mut text = Text::at(out, at);
    text.put(b);
    text.len()
}

// Puts the bytes of a text.
pub fn put_bytes(out: &mut [u8], at: usize, text: &[u8]) -> usize
    requires { at + length text.now < 2 ^ 64 }
    ensures { Put out.old at text.now out.new result }
{
    let mut to = Text::at(out, at);
    to.put_bytes(text);
    to.len()
}
