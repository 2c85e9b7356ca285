// The exported edits of a drawing and its cut cache.
ghost use Rattle.std.specs.Prelude.{◌≡◌, ℕ, Ok};
ghost use Rattle.path.specs.Flat.{anchor_at};
ghost use Rattle.session.specs.Edits.{move, set_radius, split};
ghost use Rattle.cached.specs.Opening.{lent};
ghost use Rattle.replay.specs.Encoding.{calls_of};
ghost use Rattle.replay.specs.Replay.{replay_answer, replay_lists, replay_answers};
ghost use Rattle.replay.specs.Claim.{Claim};
ghost use Rattle.answers.specs.Answers.{Tells, code, told, count_words};

use answers::tell;
use path::AnchorRef;

// Six new numbers for anchor i of subpath s.
#[unsafe(no_mangle)]
pub extern "C" fn outline_move_anchor(
    shapes: &[u32],
    anchors: &mut [f64],
    radii: &[f64],
    kind: u32,
    numbers: &mut [f64],
    flags: &mut [u32],
    s: usize,
    i: usize,
    new: &[f64; 6],
    answer: &mut [u64; 4],
) -> u32
    ensures { Tells (lent shapes.now anchors.old radii.now numbers.old flags.old) kind (move s i (anchor_at new.now 0)) result answer.new (lent shapes.now anchors.new radii.now numbers.new flags.new) }
{
    let at = AnchorRef {
        subpath: s,
        anchor: i,
    };
    let a = cached::move_anchor(
        shapes,
        anchors,
        radii,
        kind,
        numbers,
        flags,
        at,
        path::anchor_at(new, 0),
    );
    tell(a, answer)
}

// A new radius for anchor i of subpath s.
#[unsafe(no_mangle)]
pub extern "C" fn outline_set_radius(
    shapes: &[u32],
    anchors: &[f64],
    radii: &mut [f64],
    kind: u32,
    numbers: &mut [f64],
    flags: &mut [u32],
    s: usize,
    i: usize,
    radius: f64,
    answer: &mut [u64; 4],
) -> u32
    ensures { Tells (lent shapes.now anchors.now radii.old numbers.old flags.old) kind (set_radius s i radius) result answer.new (lent shapes.now anchors.now radii.new numbers.new flags.new) }
{
    let at = AnchorRef {
        subpath: s,
        anchor: i,
    };
    let a = cached::set_radius(shapes, anchors, radii, kind, numbers, flags, at, radius);
    tell(a, answer)
}

// The segment of subpath s that starts at anchor a cut in two, at t.
#[unsafe(no_mangle)]
pub extern "C" fn outline_split_segment(
    shapes: &mut [u32],
    anchors: &mut [f64],
    radii: &mut [f64],
    kind: u32,
    numbers: &mut [f64],
    flags: &mut [u32],
    s: usize,
    a: usize,
    t: f64,
    answer: &mut [u64; 4],
) -> u32
    ensures { Tells (lent shapes.old anchors.old radii.old numbers.old flags.old) kind (split s a t) result answer.new (lent shapes.new anchors.new radii.new numbers.new flags.new) }
{
    let at = AnchorRef {
        subpath: s,
        anchor: a,
    };
    let told = cached_split::split_segment(shapes, anchors, radii, kind, numbers, flags, at, t);
    tell(told, answer)
}

// The cache built, then a list of encoded calls run one after the other.
#[unsafe(no_mangle)]
pub extern "C" fn outline_replay(
    shapes: &mut [u32],
    anchors: &mut [f64],
    radii: &mut [f64],
    kind: u32,
    numbers: &mut [f64],
    flags: &mut [u32],
    codes: &[u32],
    values: &[f64],
    answers: &mut [u32],
    answer: &mut [u64; 4],
) -> u32
    ensures code { result ≡ code (replay_answer (lent shapes.old anchors.old radii.old numbers.old flags.old) kind codes.now values.now answers.old) }
    ensures answer { answer.new ≡ told count_words (replay_answer (lent shapes.old anchors.old radii.old numbers.old flags.old) kind codes.now values.now answers.old) }
    ensures lists { lent shapes.new anchors.new radii.new numbers.new flags.new ≡ replay_lists (lent shapes.old anchors.old radii.old numbers.old flags.old) kind codes.now values.now answers.old }
    ensures answers { answers.new ≡ replay_answers (lent shapes.old anchors.old radii.old numbers.old flags.old) kind codes.now values.now answers.old }
    ensures demand { (m : ℕ) → replay_answer (lent shapes.old anchors.old radii.old numbers.old flags.old) kind codes.now values.now answers.old ≡ Ok m → Claim (lent shapes.old anchors.old radii.old numbers.old flags.old) kind (calls_of codes.now values.now) (lent shapes.new anchors.new radii.new numbers.new flags.new) answers.new }
{
    let told = replay::replay(
        shapes, anchors, radii, kind, numbers, flags, codes, values, answers,
    );
    tell(told, answer)
}
