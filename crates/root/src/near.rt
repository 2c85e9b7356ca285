// A root that may be known already: it is tested, and no guess at it is made.
ghost use Rattle.std.specs.Prelude.{◌≡◌, T, from_bits};
ghost use Rattle.std.specs.Float.{binary64};
ghost use Rattle.root.specs.Root.{root_of};

use crate::{evened, root, scaled_root, settled};
use std::num::wrapping_sub_u64;

// Whether h is found to be the pattern of the root of a positive, normal f64, from its pattern b.
fn is_root(b: u64, h: u64) -> bool
    ensures { T result → root_of (from_bits binary64 b) ≡ from_bits binary64 h }
{
    if b < 0x10_0000_0000_0000 {
        return false;
    }
    if 0x7ff0_0000_0000_0000 <= b {
        return false;
    }
    let m = (b & 0xf_ffff_ffff_ffff) + 0x10_0000_0000_0000;
    let p = (b >> 52) + 52;
    let q = wrapping_sub_u64(h, ((p + 969) >> 1) * 0x10_0000_0000_0000);
    let u = q >> 23;
    if 0x1_0000_0000 <= u {
        return false;
    }
    let d = wrapping_sub_u64(evened(m, p) * 64, u * u);
    if 0x1_0000_0000 <= d {
        return false;
    }
    if !settled(u, q & 0x7f_ffff, d, q) {
        return false;
    }
    scaled_root(m, p, q) == h
}

// The root of x, where `hint` may be it: whatever it is, the answer is the root.
pub fn root_near(x: f64, hint: f64) -> f64
    ensures { result ≡ root_of x }
{
    if x.is_nan() {
        return x;
    }
    if hint.is_nan() {
        return root(x);
    }
    if is_root(f64::to_bits(x), f64::to_bits(hint)) {
        return hint;
    }
    root(x)
}
