// A gap in a list of numbers.
ghost use Rattle.std.specs.Prelude.{◌≡◌, ◌+◌, ◌*◌, ◌≤◌, length};
ghost use Rattle.edit.specs.Gap.{gapped};

// Kept: the count beside the list, which is lent longer than what it holds.
// Makes room for one group of `width` numbers at group `from`: the groups from .. count - 1 move up by one.
pub fn shift_up(list: &mut [f64], from: usize, count: usize, width: usize)
    requires { (from ≤ count) × (count * width + width ≤ length list.old) }
    ensures { list.new ≡ gapped list.old from count width }
{
    list.copy_within(from * width..count * width, from * width + width);
}
