// The line of a drawing: its cut, kept and put together.
ghost use Rattle.decimal.specs.Put.{Put};
ghost use Rattle.cache.proofs.Accepted.{Drawn};
ghost use Rattle.printing.specs.Printed.{drawing_text};

use crate::path_line::put_path;
use crate::refused::put_refusal;

// Kept: anchors and radii by themselves, and the kind by its number, as `build` takes them.
// Puts the path data of a drawing's cut, or the refusal of a cut that breaks the limit or of a text that is too long.
pub fn put_drawing(
    shapes: &[u32],
    anchors: &[f64],
    radii: &[f64],
    kind: u32,
    out: &mut [u8; 65536],
) -> usize
    requires { Drawn shapes.now anchors.now radii.now kind }
    ensures { Put out.old 0 (drawing_text shapes.now anchors.now radii.now kind) out.new result }
{
    let mut numbers = [0.0f64; 6144];
    let mut flags = [0u32; 512];
    if let Err(why) = cache::build(shapes, anchors, radii, kind, &mut numbers, &mut flags) {
        return put_refusal(out, why);
    }
    let mut words = [0u32; 32];
    let mut outline = [0.0f64; 6144];
    match cache::assemble(shapes, &numbers, &flags, &mut words, &mut outline) {
        Err(why) => put_refusal(out, why),
        Ok(made) => put_path(&words[..made.subpaths], &outline, out),
    }
}
