// How many bytes a number's decimal text takes, without writing it.
ghost use Rattle.std.specs.Prelude.{◌≡◌, ◌%◌, length};
ghost use Rattle.decimal.specs.Text.{whole_text, fraction_text};

// Of a whole number.
#[tactic(auto, using(crate::proofs::Counted::whole_length))]
pub fn whole_length(n: u64) -> usize
    ensures { result ≡ length (whole_text n) }
{
    n.max(1).ilog10() as usize + 1
}

// Of the decimals of t thousandths, and their point.
#[tactic(auto, unfolding(crate::specs::Text::fraction_text))]
pub fn fraction_length(t: u64) -> usize
    ensures { result ≡ length (fraction_text (t % 1000)) }
{
    // Kept: a match on the three remainders takes all three where these tests mostly end at the first; `to_svg_d` in two passes took 1.05 of its time.
    if t % 10 != 0 {
        4
    } else if t % 100 != 0 {
        3
    } else if t % 1000 != 0 {
        2
    } else {
        0
    }
}
