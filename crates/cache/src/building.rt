// `build`, with its refusals: 7, 5, 9 at the place.
// Kept: anchors and radii, numbers and flags by themselves, as the C interface lends them.
ghost use Rattle.std.specs.Prelude.{◌≡◌, ◌*◌, ◌≤◌, length};
ghost use Rattle.path.specs.Shape.{total};
ghost use Rattle.call.specs.Answers.{outline_answer, list_left};
ghost use Rattle.cut_calls.specs.PlainCut.{view_at};
ghost use Rattle.cache.specs.Cache.{place_of_path, cached_numbers, cached_flags, cached_in};
ghost use Rattle.cache.specs.Tests.{cache_verdict};
ghost use Rattle.cache.specs.Calls.{build_answer, build_numbers, build_flags};

use crate::sizes::size_test;
use crate::writing::write_cache;
use call::Outline;
use corner::CornerKind;
use refusal::{Reason, Refusal};

// The cache of a drawing: its cut, place by place, every corner in one way. The answer's anchors are the places.
pub fn build(
    shapes: &[u32],
    anchors: &[f64],
    radii: &[f64],
    kind: u32,
    numbers: &mut [f64],
    flags: &mut [u32],
) -> Result<Outline, Refusal>
    ensures answer { result ≡ build_answer shapes.now anchors.now radii.now kind numbers.old flags.old }
    ensures numbers { numbers.new ≡ build_numbers shapes.now anchors.now radii.now kind numbers.old flags.old }
    ensures flags { flags.new ≡ build_flags shapes.now anchors.now radii.now kind numbers.old flags.old }
{
    let Some(places) = size_test(shapes, numbers, flags) else {
        return Err(Reason::Lists.at(0));
    };
    call::open_drawing(shapes, anchors, radii)?;
    let Ok(kind) = CornerKind::try_from(kind) else {
        return Err(Reason::Arguments.at(places));
    };
    // Clearing the larger scratch would take longer than the cut.
    if places <= 32 {
        build_within::<32, 384>(shapes, anchors, radii, kind, numbers, flags)
    } else {
        build_within::<512, 6144>(shapes, anchors, radii, kind, numbers, flags)
    }
}

// With scratch for so many places, and for twelve numbers each.
fn build_within<const PLACES: usize, const NUMBERS: usize>(
    shapes: &[u32],
    anchors: &[f64],
    radii: &[f64],
    kind: CornerKind,
    numbers: &mut [f64],
    flags: &mut [u32],
) -> Result<Outline, Refusal>
    requires drawing { (length shapes.now ≤ 32) × (total shapes.now ≤ 512) × (total shapes.now * 6 ≤ length anchors.now) × (total shapes.now ≤ length radii.now) }
    requires cache { (total shapes.now * 12 ≤ length numbers.old) × (total shapes.now ≤ length flags.old) }
    requires scratch { (total shapes.now ≤ PLACES) × (PLACES * 12 ≤ NUMBERS) × (NUMBERS ≤ 6144) }
    ensures answer { result ≡ outline_answer (cache_verdict (cached_in (place_of_path shapes.now (view_at shapes.now anchors.now radii.now kind))) (total shapes.now)) (length shapes.now) (total shapes.now) }
    ensures numbers { numbers.new ≡ list_left (cache_verdict (cached_in (place_of_path shapes.now (view_at shapes.now anchors.now radii.now kind))) (total shapes.now)) (total shapes.now * 12) (cached_numbers (place_of_path shapes.now (view_at shapes.now anchors.now radii.now kind))) numbers.old }
    ensures flags { flags.new ≡ list_left (cache_verdict (cached_in (place_of_path shapes.now (view_at shapes.now anchors.now radii.now kind))) (total shapes.now)) (total shapes.now) (cached_flags (place_of_path shapes.now (view_at shapes.now anchors.now radii.now kind))) flags.old }
{
    let mut rows = [None; PLACES];
    let mut cuts = [None; PLACES];
    let mut laid = [0.0f64; NUMBERS];
    let mut laid_flags = [0u32; PLACES];
    cut_calls::lay_drawing(
        shapes,
        anchors,
        radii,
        kind,
        &mut rows,
        &mut cuts,
        &mut laid,
        &mut laid_flags,
    );
    write_cache(shapes, &laid, &laid_flags, numbers, flags)
}
