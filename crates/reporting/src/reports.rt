// What is printed for a drawing and a list of calls.
// Kept: lists by themselves, and the kind by its number, as `replay` takes them.
ghost use Rattle.std.specs.Prelude.{◌≡◌, ◌*◌, ◌/◌, ◌%◌, ◌≤◌, length};
ghost use Rattle.decimal.specs.Put.{Put};
ghost use Rattle.cache.proofs.Accepted.{Drawn};
ghost use Rattle.refusal.specs.Reasons.{number_of};
ghost use Rattle.replay.specs.Encoding.{calls_of, calls_known};
ghost use Rattle.printing.specs.Refused.{refused_text};
ghost use Rattle.reporting.specs.Report.{Fitting, drawing, drawing_report, job_report, reported};

use crate::outlines::put_outline;
use call_lines::put_calls;
use call_list::read_calls;
use printing::put_refusal;
use refusal::{Reason, Refusal};

// How many bytes the calls' lines take, and the last line less its newline.
#[derive(Clone, Copy)]
pub struct Reported {
    pub lines: usize,
    pub text: usize,
}

// A refusal alone.
fn refuse(out: &mut [u8], why: Refusal) -> Reported
    ensures lines { result.lines ≡ 0 }
    ensures text { Put out.old 0 (refused_text (number_of why.reason) why.place) out.new result.text }
    ensures room { Fitting result }
{
    Reported {
        lines: 0,
        text: put_refusal(out, why),
    }
}

// Runs the calls on the drawing's fresh cache, in place, and puts what is printed.
fn report_drawing(
    shapes: &mut [u32],
    anchors: &mut [f64],
    radii: &mut [f64],
    kind: u32,
    codes: &[u32],
    values: &[f64],
    lines: &mut [u8],
    out: &mut [u8; 65536],
) -> Reported
    requires drawing { Drawn shapes.old anchors.old radii.old kind × (length anchors.old ≡ 3072) × (length radii.old ≡ 512) }
    requires calls { (length codes.now % 3 ≡ 0) × (length codes.now ≤ 768) × (length codes.now / 3 * 6 ≤ length values.now) }
    ensures lines { Put lines.old 0 (drawing_report (calls_known codes.now) (calls_of codes.now values.now) (drawing shapes.old anchors.old radii.old kind)).lines lines.new result.lines }
    ensures text { Put out.old 0 (drawing_report (calls_known codes.now) (calls_of codes.now values.now) (drawing shapes.old anchors.old radii.old kind)).text out.new result.text }
    ensures room { Fitting result }
{
    let mut numbers = [0.0f64; 6144];
    let mut flags = [0u32; 512];
    let mut answers = [0u32; 1280];
    match replay::replay(
        shapes,
        anchors,
        radii,
        kind,
        &mut numbers,
        &mut flags,
        codes,
        values,
        &mut answers,
    ) {
        Err(why) => refuse(out, why),
        Ok(m) => Reported {
            lines: put_calls(lines, codes, &answers, m),
            text: put_outline(shapes, &numbers, &flags, out),
        },
    }
}

// What is printed for a job file and a list of calls.
fn report_job(
    bytes: &[u8],
    codes: &[u32],
    values: &[f64],
    lines: &mut [u8],
    out: &mut [u8; 65536],
) -> Reported
    requires calls { (length codes.now % 3 ≡ 0) × (length codes.now ≤ 768) × (length codes.now / 3 * 6 ≤ length values.now) }
    ensures lines { Put lines.old 0 (job_report (calls_known codes.now) (calls_of codes.now values.now) bytes.now).lines lines.new result.lines }
    ensures text { Put out.old 0 (job_report (calls_known codes.now) (calls_of codes.now values.now) bytes.now).text out.new result.text }
    ensures room { Fitting result }
{
    if bytes.len() > 32768 {
        return refuse(out, Reason::Unended.at(8192));
    }
    let mut shapes = [0u32; 32];
    let mut anchors = [0.0f64; 3072];
    let mut radii = [0.0f64; 512];
    match job_calls::read(bytes, &mut shapes, &mut anchors, &mut radii) {
        Err(why) => refuse(out, why),
        Ok(read) => report_drawing(
            &mut shapes[..read.subpaths],
            &mut anchors,
            &mut radii,
            read.kind,
            codes,
            values,
            lines,
            out,
        ),
    }
}

// Puts what `edits` prints for its input: the lines of the calls into one list, the last line less its newline into the other.
pub fn report(bytes: &[u8], lines: &mut [u8; 16384], out: &mut [u8; 65536]) -> Reported
    ensures lines { Put lines.old 0 (reported bytes.now).lines lines.new result.lines }
    ensures text { Put out.old 0 (reported bytes.now).text out.new result.text }
    ensures room { Fitting result }
{
    let mut codes = [0u32; 768];
    let mut values = [0.0f64; 1536];
    match read_calls(bytes, &mut codes, &mut values) {
        Err(why) => refuse(out, why),
        Ok(m) => {
            let job = 4 + m * 36;
            report_job(&bytes[job..], &codes[..m * 3], &values[..m * 6], lines, out)
        }
    }
}
