// Refusal 7 of the calls on caches.
// Kept: numbers and flags by themselves, as the C interface lends them.
ghost use Rattle.std.specs.Prelude.{◌≡◌};
ghost use Rattle.cache.specs.Tests.{cache_size};

// The anchors of a path whose cache these lists are long enough for.
pub fn size_test(shapes: &[u32], numbers: &[f64], flags: &[u32]) -> Option<usize>
    ensures { result ≡ cache_size shapes.now numbers.now flags.now }
{
    let n = path::size_test(shapes, 512)?;
    if numbers.len() < n * 12 {
        return None;
    }
    if flags.len() < n {
        return None;
    }
    Some(n)
}
