// The anchors and the words that stay move down over those that go.
ghost use Rattle.std.specs.Prelude.{◌≡◌, ◌+◌, ◌*◌, ◌≤◌, length};
ghost use Rattle.views.specs.View.{overwrite};
ghost use Rattle.views.specs.Search.{count};
ghost use Rattle.path.specs.Flat.{anchor_at, put_all, listed};
ghost use Rattle.path.specs.Shape.{total, word_at};
ghost use Rattle.removal.specs.Deleted.{retained, suffices, kept_words, kept_anchors};
ghost use Rattle.removal.specs.Marks.{kept_at, kept_in};

use call::Outline;

// How many anchors are kept.
fn count_kept(gone: &[bool]) -> usize
    ensures { result ≡ count (kept_at gone.now) (length gone.now) }
{
    gone.iter().filter(|mark| !**mark).count()
}

// Puts those that are kept, of the anchors from place `first` on, to place `at` and after it. No place is written before it is read.
fn move_kept(anchors: &mut [f64], gone: &[bool], first: usize, at: usize)
    requires { (first + length gone.now ≤ 512) × ((first + length gone.now) * 6 ≤ length anchors.old) × (at ≤ first) }
    ensures { anchors.new ≡ put_all anchors.old at (retained (kept_at gone.now) (λ k. anchor_at anchors.old (first + k)) (length gone.now)) }
{
    let mut next = at;
    // Kept: the next place by hand, since the anchors move down in the list that is read.
    for (k, mark) in gone.iter().enumerate() {
        if !*mark {
            let a = path::anchor_at(anchors, first + k);
            path::put_anchor(anchors, next, a);
            next += 1;
        }
    }
}

// Whether a subpath with n anchors left stays.
fn suffices(closed: bool, n: usize) -> bool
    ensures { result ≡ suffices closed n }
{
    n >= if closed { 3 } else { 2 }
}

// Leaves the subpaths that stay in front of both lists.
pub fn move_down(shapes: &mut [u32], anchors: &mut [f64], gone: &[bool]) -> Outline
    requires { (length shapes.old ≤ 32) × (total shapes.old ≤ 512) × (total shapes.old ≤ length gone.now) × (total shapes.old * 6 ≤ length anchors.old) }
    ensures answer { result ≡ record { subpaths = length (kept_words shapes.old anchors.old (kept_in shapes.old gone.now)); anchors = length (kept_anchors shapes.old anchors.old (kept_in shapes.old gone.now)) } }
    ensures shapes { shapes.new ≡ overwrite (length (kept_words shapes.old anchors.old (kept_in shapes.old gone.now))) (word_at (kept_words shapes.old anchors.old (kept_in shapes.old gone.now))) shapes.old }
    ensures anchors { anchors.new ≡ listed (kept_anchors shapes.old anchors.old (kept_in shapes.old gone.now)) anchors.old }
{
    let mut first = 0;
    let mut at = 0;
    let mut words = 0;
    // Kept: by index, with three sums by hand, since the words move down in the list that is read.
    for s in 0..shapes.len() {
        let n = path::count_of(shapes[s]);
        let closed = path::closed_of(shapes[s]);
        let marks = &gone[first..first + n];
        let left = count_kept(marks);
        if suffices(closed, left) {
            move_kept(anchors, marks, first, at);
            shapes[words] = path::word(left, closed);
            words += 1;
            at += left;
        }
        first += n;
    }
    Outline {
        subpaths: words,
        anchors: at,
    }
}
