// Which anchors of a path go: those that references name.
ghost use Rattle.std.specs.Prelude.{◌≡◌, true, false, ◌≤◌, length, MatchOption};
ghost use Rattle.views.specs.View.{overwrite};
ghost use Rattle.views.specs.Search.{all};
ghost use Rattle.path.specs.Shape.{total, start};
ghost use Rattle.removal.specs.Deleted.{pairs, points_in};
ghost use Rattle.removal.specs.Marks.{Marked};

// The place where each subpath starts.
fn fill_starts(shapes: &[u32], starts: &mut [usize])
    requires { (length shapes.now ≤ length starts.old) × (total shapes.now ≤ 512) }
    ensures { starts.new ≡ overwrite (length shapes.now) (start shapes.now) starts.old }
{
    let mut first = 0;
    // Kept: the sum and the index by hand, since a proof learns only the length of what iter_mut leaves.
    for (s, word) in shapes.iter().enumerate() {
        starts[s] = first;
        first += path::count_of(*word);
    }
}

// Marks at the places of the anchors that the references name, unless one of them points to no anchor.
pub fn marks(shapes: &[u32], which: &[u32]) -> Option<[bool; 512]>
    requires { (length shapes.now ≤ 32) × (total shapes.now ≤ 512) }
    ensures { MatchOption result (all (points_in shapes.now which.now) (pairs which.now) ≡ false) (λ gone. (length gone ≡ 512) × (all (points_in shapes.now which.now) (pairs which.now) ≡ true) × Marked shapes.now which.now (pairs which.now) gone) }
{
    let mut starts = [0usize; 32];
    fill_starts(shapes, &mut starts);
    let mut gone = [false; 512];
    for pair in which.chunks_exact(2) {
        let s = pair[0] as usize;
        let k = pair[1] as usize;
        if !path::has_anchor(shapes, s, k) {
            return None;
        }
        gone[starts[s] + k] = true;
    }
    Some(gone)
}
