// The nearest thousandth of an f64, from its bits.
ghost use Rattle.std.specs.Prelude.{◌≡◌, true, ◌^◌, ◌<◌};
ghost use Rattle.std.specs.Float.Ieee.Nearest.{closest};
ghost use Rattle.real.specs.Limit.{in_limit};
ghost use Rattle.decimal.specs.Rounding.{thousandths_of, sign_of};

// n / 2^s to the nearest whole number, a tie to the even one.
fn nearest(n: u64, s: u64) -> u64
    requires { (n < 2 ^ 63) × (0 < s) × (s < 64) }
    ensures { result ≡ closest n (2 ^ s) }
{
    let q = n >> s;
    let left = n - (q << s);
    let half = 1 << (s - 1);
    // Kept: by a match on `left.cmp(&half)` `write_num` took 1.12 of its time.
    if left < half {
        q
    } else if left == half {
        q + q % 2
    } else {
        q + 1
    }
}

// The whole number nearest to |x| * 1000, a tie to the even one.
#[tactic(auto, using(crate::proofs::Values::limit_no_nan, crate::proofs::Values::field_within, crate::proofs::Values::field_none, crate::proofs::Values::field_some))]
pub fn thousandths(x: f64) -> u64
    requires { in_limit x ≡ true }
    ensures { result ≡ thousandths_of x }
{
    let b = x.to_bits();
    let field = (b >> 52) % 2048;
    if field < 1012 {
        return 0;
    }
    nearest(
        (b % 0x10_0000_0000_0000 + 0x10_0000_0000_0000) * 1000,
        1075 - field,
    )
}

// Whether the sign is set.
#[tactic(auto, using(crate::proofs::Values::limit_no_nan, crate::proofs::Values::sign_negative))]
pub fn negative(x: f64) -> bool
    requires { in_limit x ≡ true }
    ensures { result ≡ sign_of x }
{
    x.is_sign_negative()
}
