// The exported calls on a job file.
ghost use Rattle.std.specs.Prelude.{◌≡◌};
ghost use Rattle.decimal.specs.Put.{Put};
ghost use Rattle.job_calls.specs.Call.{answer_read, shapes_read, anchors_read, radii_read};
ghost use Rattle.printing.specs.Printed.{printed};
ghost use Rattle.answers.specs.Answers.{code, told, job_words};

use answers::tell;

#[unsafe(no_mangle)]
pub extern "C" fn outline_read(
    bytes: &[u8],
    shapes: &mut [u32],
    anchors: &mut [f64],
    radii: &mut [f64],
    answer: &mut [u64; 4],
) -> u32
    ensures code { result ≡ code (answer_read bytes.now shapes.old anchors.old radii.old) }
    ensures answer { answer.new ≡ told job_words (answer_read bytes.now shapes.old anchors.old radii.old) }
    ensures shapes { shapes.new ≡ shapes_read bytes.now shapes.old anchors.old radii.old }
    ensures anchors { anchors.new ≡ anchors_read bytes.now shapes.old anchors.old radii.old }
    ensures radii { radii.new ≡ radii_read bytes.now shapes.old anchors.old radii.old }
{
    let a = job_calls::read(bytes, shapes, anchors, radii);
    tell(a, answer)
}

#[unsafe(no_mangle)]
pub extern "C" fn outline_print(job: &[u8], line: &mut [u8; 65536]) -> usize
    ensures { Put line.old 0 (printed job.now) line.new result }
{
    printing::print(job, line)
}
