// The calls: document 01's tests in their order, then the text.
ghost use Rattle.std.specs.Prelude.{◌≡◌, true, ℕ, ◌≤◌, ◌<◌, length};
ghost use Rattle.real.specs.Limit.{in_limit};
ghost use Rattle.decimal.specs.Put.{Put};
ghost use Rattle.decimal.specs.Text.{float_text};
ghost use Rattle.path.specs.Shape.{total};
ghost use Rattle.path.specs.Flat.{anchor_at};
ghost use Rattle.svg.specs.Path.{text_of};
ghost use Rattle.svg.specs.Pieces.{Placed};
ghost use Rattle.svg_calls.specs.Call.{to_svg_d_answer, to_svg_d_left, write_num_answer, write_num_left, handed_answer, handed_left};

use decimal::Text;
use refusal::{Reason, Refusal};
use svg::put_path;

// The SVG path data of a path of at most 1,024 anchors. The answer is the text's length.
pub fn to_svg_d(shapes: &[u32], anchors: &[f64], out: &mut [u8]) -> Result<usize, Refusal>
    ensures answer { result ≡ to_svg_d_answer shapes.now anchors.now out.old }
    ensures left { out.new ≡ to_svg_d_left shapes.now anchors.now out.old }
{
    let n = call::open_path(1024, shapes, anchors)?;
    hand_text(shapes, anchors, n, out)
}

// The text of a path of n anchors: refused where the list is too short, else written. An anchor takes at most 73 bytes, and a subpath 27
// beside, so that a list with that room is written at once. Else the text is first put to a list of one byte, past whose end it is counted
// and not stored.
// Kept: n beside the lists, since the opening counted it, and the anchors are lent longer than what they hold.
fn hand_text(shapes: &[u32], anchors: &[f64], n: usize, out: &mut [u8]) -> Result<usize, Refusal>
    requires by_index { (j : ℕ) → j < total shapes.now → Placed anchors.now j }
    requires shapes_len_bound { (length shapes.now ≤ 32) × (total shapes.now ≤ 1024) × (n ≡ total shapes.now) }
    ensures answer { result ≡ handed_answer (text_of shapes.now (anchor_at anchors.now)) out.old }
    ensures left { out.new ≡ handed_left (text_of shapes.now (anchor_at anchors.now)) out.old }
{
    if out.len() >= 73 * n + 27 * shapes.len() {
        return Ok(put_path(shapes, anchors, out));
    }
    let length = put_path(shapes, anchors, &mut [0u8; 1]);
    if out.len() < length {
        return Err(Reason::Output.at(0));
    }
    put_path(shapes, anchors, out);
    Ok(length)
}

// A number to three decimals, without trailing zeros, never "-0". The answer is the text's length.
pub fn write_num(x: f64, out: &mut [u8]) -> Result<usize, Refusal>
    ensures answer { result ≡ write_num_answer x out.old }
    ensures left { out.new ≡ write_num_left x out.old }
{
    if !real::in_limit(x) {
        return Err(Reason::Arguments.at(0));
    }
    let bytes = put_number(x, &mut [0u8; 1]);
    if out.len() < bytes {
        return Err(Reason::Output.at(0));
    }
    put_number(x, out);
    Ok(bytes)
}

// Puts a number's text from a list's start.
fn put_number(x: f64, out: &mut [u8]) -> usize
    requires { in_limit x ≡ true }
    ensures { Put out.old 0 (float_text x) out.new result }
{
    let mut text = Text::new(out);
    text.write_num(x);
    text.len()
}
