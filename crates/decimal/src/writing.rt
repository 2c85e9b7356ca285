// A number's decimal text, put at the end of a text, or into a lent list from a place on.
ghost use Rattle.std.specs.Prelude.{◌≡◌, true, ◌+◌, ◌^◌, ◌≤◌, ◌<◌, [], ◌∷◌, length};
ghost use Rattle.real.specs.Limit.{in_limit};
ghost use Rattle.decimal.specs.Put.{Put, Adds};
ghost use Rattle.decimal.specs.Text.{whole_text, fraction_text, size_text, float_text};

use crate::lengths::{fraction_length, whole_length};
use crate::rounding::{negative, thousandths};
use crate::text::Text;

impl Text<'_> {
    fn put_digit(&mut self, d: u64)
        requires { d < 10 }
        ensures { Adds self.old ((48 + d) ∷ []) self.new }
    {
        self.put(b'0' + d as u8);
    }

    // Puts n in decimal, its last digit first: so no digit waits for the place of the one before it.
    pub fn put_whole(&mut self, n: u64)
        ensures { Adds self.old (whole_text n) self.new }
    {
        // A digit alone is not counted first: by the loop below `write_num` of 0 took 1.6 of its time.
        if n < 10 {
            return self.put_digit(n);
        }
        let length = whole_length(n);
        let at = self.at;
        let room = self.out.len().saturating_sub(at);
        let mut left = n;
        for i in (0..length).rev() {
            if i < room {
                self.out[at + i] = b'0' + (left % 10) as u8;
            }
            left /= 10;
        }
        self.count(length);
    }

    // Puts a point and the decimals f, in thousandths, without zeros at their end.
    #[tactic(auto, unfolding(crate::specs::Text::fraction_text))]
    fn put_fraction(&mut self, f: u64)
        requires { (0 < f) × (f < 1000) }
        ensures { Adds self.old (fraction_text f) self.new }
    {
        self.put(b'.');
        self.put_digit(f / 100);
        if f % 100 == 0 {
            return;
        }
        self.put_digit(f / 10 % 10);
        if f % 10 == 0 {
            return;
        }
        self.put_digit(f % 10);
    }

    // Puts the whole part of t thousandths, and their decimals. Past the list's end only their length is wanted.
    fn put_size(&mut self, t: u64)
        ensures { Adds self.old (size_text t) self.new }
    {
        if self.is_full() {
            return self.count(whole_length(t / 1000) + fraction_length(t));
        }
        self.put_whole(t / 1000);
        if t % 1000 != 0 {
            self.put_fraction(t % 1000);
        }
    }

    // Puts x: its sign, its whole part, and at most three decimals. It takes at most 11 bytes.
    pub fn write_num(&mut self, x: f64)
        requires { in_limit x ≡ true }
        ensures text { Adds self.old (float_text x) self.new }
        ensures room { self.new.at ≤ self.old.at + 11 }
    {
        let t = thousandths(x);
        if t != 0 && negative(x) {
            self.put(b'-');
        }
        self.put_size(t);
    }
}

// Puts n in decimal into a list from a place on, and answers the place after it.
pub fn put_whole(out: &mut [u8], at: usize, n: u64) -> usize
    requires { at + length (whole_text n) < 2 ^ 64 }
    ensures { Put out.old at (whole_text n) out.new result }
{
    let mut digits = Text::at(out, at);
    digits.put_whole(n);
    digits.len()
}

// The same of x, by `Text::write_num`.
pub fn write_num(out: &mut [u8], at: usize, x: f64) -> usize
    requires { (in_limit x ≡ true) × (at + 11 < 2 ^ 64) }
    ensures text { Put out.old at (float_text x) out.new result }
    ensures room { result ≤ at + 11 }
{
    let mut number = Text::at(out, at);
    number.write_num(x);
    number.len()
}
