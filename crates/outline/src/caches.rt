// The exported calls on caches.
ghost use Rattle.std.specs.Prelude.{◌≡◌};
ghost use Rattle.cache.specs.Calls.{build_answer, build_numbers, build_flags, assemble_answer, assemble_shapes, assemble_anchors};
ghost use Rattle.answers.specs.Answers.{code, told, outline_words};

use answers::tell;

#[unsafe(no_mangle)]
pub extern "C" fn outline_build(
    shapes: &[u32],
    anchors: &[f64],
    radii: &[f64],
    kind: u32,
    numbers: &mut [f64],
    flags: &mut [u32],
    answer: &mut [u64; 4],
) -> u32
    ensures code { result ≡ code (build_answer shapes.now anchors.now radii.now kind numbers.old flags.old) }
    ensures answer { answer.new ≡ told outline_words (build_answer shapes.now anchors.now radii.now kind numbers.old flags.old) }
    ensures numbers { numbers.new ≡ build_numbers shapes.now anchors.now radii.now kind numbers.old flags.old }
    ensures flags { flags.new ≡ build_flags shapes.now anchors.now radii.now kind numbers.old flags.old }
{
    let a = cache::build(shapes, anchors, radii, kind, numbers, flags);
    tell(a, answer)
}

#[unsafe(no_mangle)]
pub extern "C" fn outline_assemble(
    shapes: &[u32],
    numbers: &[f64],
    flags: &[u32],
    to_shapes: &mut [u32],
    to: &mut [f64],
    answer: &mut [u64; 4],
) -> u32
    ensures code { result ≡ code (assemble_answer shapes.now numbers.now flags.now to_shapes.old to.old) }
    ensures answer { answer.new ≡ told outline_words (assemble_answer shapes.now numbers.now flags.now to_shapes.old to.old) }
    ensures shapes { to_shapes.new ≡ assemble_shapes shapes.now numbers.now flags.now to_shapes.old to.old }
    ensures anchors { to.new ≡ assemble_anchors shapes.now numbers.now flags.now to_shapes.old to.old }
{
    let a = cache::assemble(shapes, numbers, flags, to_shapes, to);
    tell(a, answer)
}
