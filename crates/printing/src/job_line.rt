// The line of a job.
ghost use Rattle.std.specs.Prelude.{length, ◌≡◌};
ghost use Rattle.decimal.specs.Put.{Put};
ghost use Rattle.printing.specs.Printed.{printed};

use crate::drawing_line::put_drawing;
use crate::refused::put_refusal;
use refusal::Reason;

// Puts what `patch` prints for a job, less the newline. The answer is how many bytes.
pub fn print(bytes: &[u8], out: &mut [u8; 65536]) -> usize
    ensures { Put out.old 0 (printed bytes.now) out.new result }
{
    if bytes.len() > 32768 {
        return put_refusal(out, Reason::Unended.at(8192));
    }
    let mut shapes = [0u32; 32];
    let mut anchors = [0.0f64; 3072];
    let mut radii = [0.0f64; 512];
    match job_calls::read(bytes, &mut shapes, &mut anchors, &mut radii) {
        Err(why) => put_refusal(out, why),
        Ok(read) => put_drawing(
            &shapes[..read.subpaths],
            &anchors[..read.anchors * 6],
            &radii[..read.anchors],
            read.kind,
            out,
        ),
    }
}
