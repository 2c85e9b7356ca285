// The five calls. Each tests in document 01's order: its arguments, its result, then the room that was lent.
ghost use Rattle.std.specs.Prelude.{◌≡◌};
ghost use Rattle.cubic_calls.specs.Calls.{len_answer, cubic_at_answer, sample_answer, sample_left, split_answer, split_before, split_after, part_answer, part_left};

use crate::limits::{numbers_in_limit, put_curve};
use cubic::curve_in_limit;
use geom::P;
use refusal::{Reason, Refusal};

// The length of a vector.
pub fn len(p: P) -> Result<f64, Refusal>
    ensures { result ≡ len_answer p }
{
    if !p.in_limit() {
        return Err(Reason::Arguments.at(0));
    }
    let l = p.len();
    if !real::in_limit(l) {
        return Err(Reason::Made.at(0));
    }
    Ok(l)
}

// The point of a cubic at t.
pub fn cubic_at(c: [P; 4], t: f64) -> Result<P, Refusal>
    ensures { result ≡ cubic_at_answer c t }
{
    if !curve_in_limit(c) || !real::in_limit(t) {
        return Err(Reason::Arguments.at(0));
    }
    let p = cubic::cubic_at(c, t);
    if !p.in_limit() {
        return Err(Reason::Made.at(0));
    }
    Ok(p)
}

// The points of at most 256 equal steps along a cubic. The answer is how many points.
pub fn sample(c: [P; 4], n: usize, out: &mut [f64]) -> Result<usize, Refusal>
    ensures answer { result ≡ sample_answer c n out.old }
    ensures left { out.new ≡ sample_left c n out.old }
{
    if !curve_in_limit(c) || 256 < n {
        return Err(Reason::Arguments.at(0));
    }
    let mut points = [0.0f64; 514];
    let count = cubic::sample(c, n, &mut points);
    if !numbers_in_limit(&points[..2 * count]) {
        return Err(Reason::Made.at(0));
    }
    if out.len() < 2 * count {
        return Err(Reason::Output.at(0));
    }
    views::copy(&points, 2 * count, out);
    Ok(count)
}

// The cubic before t and the cubic after it. The answer is how many points each list has.
pub fn split_cubic(
    c: [P; 4],
    t: f64,
    before: &mut [f64],
    after: &mut [f64],
) -> Result<usize, Refusal>
    ensures answer { result ≡ split_answer c t before.old after.old }
    ensures before { before.new ≡ split_before c t before.old after.old }
    ensures after { after.new ≡ split_after c t before.old after.old }
{
    if !curve_in_limit(c) || !real::in_limit(t) {
        return Err(Reason::Arguments.at(0));
    }
    let halves = cubic::split_cubic(c, t);
    if !curve_in_limit(halves.before) || !curve_in_limit(halves.after) {
        return Err(Reason::Made.at(0));
    }
    if before.len() < 8 || after.len() < 8 {
        return Err(Reason::Output.at(0));
    }
    put_curve(halves.before, before);
    put_curve(halves.after, after);
    Ok(4)
}

// The part of a cubic between two parameters. The answer is how many points.
pub fn subsegment(c: [P; 4], from: f64, to: f64, out: &mut [f64]) -> Result<usize, Refusal>
    ensures answer { result ≡ part_answer c from to out.old }
    ensures left { out.new ≡ part_left c from to out.old }
{
    if !curve_in_limit(c) || !real::in_limit(from) || !real::in_limit(to) {
        return Err(Reason::Arguments.at(0));
    }
    let part = cubic::subsegment(c, from, to);
    if !curve_in_limit(part) {
        return Err(Reason::Made.at(0));
    }
    if out.len() < 8 {
        return Err(Reason::Output.at(0));
    }
    put_curve(part, out);
    Ok(4)
}
