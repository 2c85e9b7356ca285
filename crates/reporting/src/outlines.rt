// The last text: the outline that a cache holds.
// Kept: numbers and flags by themselves, as `assemble` takes them.
ghost use Rattle.decimal.specs.Put.{Put};
ghost use Rattle.printing.specs.Printed.{fitted};
ghost use Rattle.reporting.specs.Gathered.{held_text, Gathers};

use printing::{put_path, put_refusal};

// Puts the path data of the outline that a cache holds, or the refusal of a text that is too long.
pub fn put_outline(shapes: &[u32], numbers: &[f64], flags: &[u32], out: &mut [u8; 65536]) -> usize
    requires { Gathers shapes.now numbers.now flags.now }
    ensures { Put out.old 0 (fitted (held_text shapes.now numbers.now flags.now)) out.new result }
{
    let mut words = [0u32; 32];
    let mut outline = [0.0f64; 6144];
    match cache::assemble(shapes, numbers, flags, &mut words, &mut outline) {
        Err(why) => put_refusal(out, why),
        Ok(made) => put_path(&words[..made.subpaths], &outline, out),
    }
}
