// The C interface: one thin exported function for each call (include/outline.h says what a caller owes). Each returns the refusal's
// number, 0 where the call is accepted, and writes place, count, subpaths and recut to `answer`; what is lent for a result is written
// only where the call is accepted.
// Kept: each list by itself, here and in every function that a call hands it to, since C lends it so.
#![tactic(auto)]

ghost use Rattle.std.specs.Prelude.{◌≡◌};
ghost use Rattle.root.specs.Root.{root_of};
ghost use Rattle.geom.specs.Point.{point};
ghost use Rattle.cubic_calls.specs.Calls.{len_answer, cubic_at_answer, sample_answer, sample_left, split_answer, split_before, split_after, part_answer, part_left};
ghost use Rattle.answers.specs.Answers.{curve_of, code, told, left, number_words, number_put, point_words, point_put, count_words};

use answers::tell;
use geom::P;

mod bends;
mod caches;
mod corners;
mod edits;
mod hits;
mod jobs;
mod joins;
mod paths;
mod sessions;
mod shapes;

// The control points of a cubic, from eight numbers, x before y.
fn curve(c: &[f64; 8]) -> [P; 4]
    ensures { result ≡ curve_of c.now }
{
    [
        P::new(c[0], c[1]),
        P::new(c[2], c[3]),
        P::new(c[4], c[5]),
        P::new(c[6], c[7]),
    ]
}

// The square root of x, as IEEE 754 has it.
#[unsafe(no_mangle)]
pub extern "C" fn outline_root(x: f64) -> f64
    ensures { result ≡ root_of x }
{
    root::root(x)
}

#[unsafe(no_mangle)]
pub extern "C" fn outline_len(x: f64, y: f64, length: &mut f64, answer: &mut [u64; 4]) -> u32
    ensures code { result ≡ code (len_answer (point x y)) }
    ensures length { length.new ≡ left number_put (len_answer (point x y)) length.old }
    ensures answer { answer.new ≡ told number_words (len_answer (point x y)) }
{
    let a = cubic_calls::len(P::new(x, y));
    if let Ok(l) = a {
        *length = l;
    }
    tell(a, answer)
}

#[unsafe(no_mangle)]
pub extern "C" fn outline_cubic_at(
    c: &[f64; 8],
    t: f64,
    point: &mut [f64; 2],
    answer: &mut [u64; 4],
) -> u32
    ensures code { result ≡ code (cubic_at_answer (curve_of c.now) t) }
    ensures point { point.new ≡ left point_put (cubic_at_answer (curve_of c.now) t) point.old }
    ensures answer { answer.new ≡ told point_words (cubic_at_answer (curve_of c.now) t) }
{
    let a = cubic_calls::cubic_at(curve(c), t);
    if let Ok(p) = a {
        *point = [p.x, p.y];
    }
    tell(a, answer)
}

#[unsafe(no_mangle)]
pub extern "C" fn outline_sample(
    c: &[f64; 8],
    n: usize,
    out: &mut [f64],
    answer: &mut [u64; 4],
) -> u32
    ensures code { result ≡ code (sample_answer (curve_of c.now) n out.old) }
    ensures answer { answer.new ≡ told count_words (sample_answer (curve_of c.now) n out.old) }
    ensures out { out.new ≡ sample_left (curve_of c.now) n out.old }
{
    let a = cubic_calls::sample(curve(c), n, out);
    tell(a, answer)
}

#[unsafe(no_mangle)]
pub extern "C" fn outline_split_cubic(
    c: &[f64; 8],
    t: f64,
    before: &mut [f64],
    after: &mut [f64],
    answer: &mut [u64; 4],
) -> u32
    ensures code { result ≡ code (split_answer (curve_of c.now) t before.old after.old) }
    ensures answer { answer.new ≡ told count_words (split_answer (curve_of c.now) t before.old after.old) }
    ensures before { before.new ≡ split_before (curve_of c.now) t before.old after.old }
    ensures after { after.new ≡ split_after (curve_of c.now) t before.old after.old }
{
    let a = cubic_calls::split_cubic(curve(c), t, before, after);
    tell(a, answer)
}

#[unsafe(no_mangle)]
pub extern "C" fn outline_subsegment(
    c: &[f64; 8],
    from: f64,
    to: f64,
    out: &mut [f64],
    answer: &mut [u64; 4],
) -> u32
    ensures code { result ≡ code (part_answer (curve_of c.now) from to out.old) }
    ensures answer { answer.new ≡ told count_words (part_answer (curve_of c.now) from to out.old) }
    ensures out { out.new ≡ part_left (curve_of c.now) from to out.old }
{
    let a = cubic_calls::subsegment(curve(c), from, to, out);
    tell(a, answer)
}
