// Lists as functions of the index, searches and counts: the words that every loop's contract is said in (specs/, with their laws in
// proofs/), and the copy that a call ends with.
#![tactic(auto)]

ghost use Rattle.std.specs.Prelude.{◌≡◌, ◌≤◌, length, get_or};
ghost use Rattle.views.specs.View.{overwrite};

// The first n entries of one list into another.
// Kept: n beside the lists, since a call works in and is lent lists that are longer than what it answers.
// Kept: by index, since `copy_from_slice` has a C archive want `memmove`, which it needs for nothing else.
pub fn copy<T: Copy>(from: &[T], n: usize, to: &mut [T])
    requires { (n ≤ length from.now) × (n ≤ length to.old) }
    ensures { (d : T) → to.new ≡ overwrite n (λ i. get_or from.now i d) to.old }
{
    for i in 0..n {
        to[i] = from[i];
    }
}
