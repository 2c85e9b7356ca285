// Document 01's stand-ins for Rust's methods on f64, and its limit on every number of a drawing.
#![tactic(auto, unfolding(crate::specs::StandIns::max, crate::specs::StandIns::min, crate::specs::StandIns::clamp))]

ghost use Rattle.std.specs.Prelude.{◌≡◌};
ghost use Rattle.real.specs.StandIns.{max, min, clamp, abs};
ghost use Rattle.real.specs.Limit.{in_limit};
ghost use Rattle.real.specs.Finite.{is_finite};

// a where b < a, else b: a NaN on either side gives b.
// Kept: f64::max gives the other number where one is a NaN, and does not say which of two equal ones it gives.
pub fn max(a: f64, b: f64) -> f64
    ensures { result ≡ max a b }
{
    if b < a { a } else { b }
}

// a where a < b, else b: a NaN on either side gives b.
// Kept: f64::min gives the other number where one is a NaN, and does not say which of two equal ones it gives.
pub fn min(a: f64, b: f64) -> f64
    ensures { result ≡ min a b }
{
    if a < b { a } else { b }
}

// low where x is below it, high where x is above that, else x, a NaN too.
// Kept: f64::clamp asks of its caller that low <= high, and this asks nothing.
pub fn clamp(x: f64, low: f64, high: f64) -> f64
    ensures { result ≡ clamp x low high }
{
    if x < low {
        return low;
    }
    if high < x {
        return high;
    }
    x
}

// x with its sign cleared, that of -0 too.
#[tactic(auto, using(crate::proofs::Signs::cleared))]
pub fn abs(x: f64) -> f64
    ensures { result ≡ abs x }
{
    x.abs()
}

// Whether x is finite and of magnitude at most 131,072.
pub fn in_limit(x: f64) -> bool
    ensures { result ≡ in_limit x }
{
    -131072.0 <= x && x <= 131072.0
}

// Whether x is neither an infinity nor a NaN.
pub fn is_finite(x: f64) -> bool
    ensures { result ≡ is_finite x }
{
    x.is_finite()
}
