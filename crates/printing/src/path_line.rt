// The line of a cut outline.
ghost use Rattle.std.specs.Prelude.{◌≡◌, length};
ghost use Rattle.decimal.specs.Put.{Put};
ghost use Rattle.path.specs.Flat.{anchor_at};
ghost use Rattle.svg.specs.Path.{text_of};
ghost use Rattle.call.proofs.Openings.{PathOpens};
ghost use Rattle.path.specs.Shape.{total};
ghost use Rattle.printing.specs.Printed.{fitted};

use crate::refused::put_refusal;

// Puts the path data of a path that passes the tests, or the refusal of a text that is too long.
pub fn put_path(words: &[u32], anchors: &[f64], out: &mut [u8]) -> usize
    requires { PathOpens 1024 words.now anchors.now (total words.now) × (length out.old ≡ 65536) }
    ensures { Put out.old 0 (fitted (text_of words.now (anchor_at anchors.now))) out.new result }
{
    match svg_calls::to_svg_d(words, anchors, out) {
        Err(why) => put_refusal(out, why),
        Ok(length) => length,
    }
}
