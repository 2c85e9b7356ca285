// Lists with room for any job, and what one word puts into them.
ghost use Rattle.std.specs.Prelude.{◌≡◌, ◌≤◌, replicate};
ghost use Rattle.real.specs.Operators.{0f};
ghost use Rattle.job.specs.Lists.{coordinate, put_shape, put_number, put_radius};

use job::{Kind, Seen, Word};

// A drawing's lists while it is read.
#[derive(Drop)]
pub struct Lists {
    pub shapes: [u32; 32],
    pub numbers: [f64; 3072],
    pub radii: [f64; 512],
}

// Which of an anchor's six numbers a word of this kind is.
fn coordinate(kind: Kind) -> Option<usize>
    ensures { result ≡ coordinate kind }
{
    match kind {
        Kind::X => Some(0),
        Kind::Y => Some(1),
        Kind::InX => Some(2),
        Kind::InY => Some(3),
        Kind::OutX => Some(4),
        Kind::OutY => Some(5),
        _ => None,
    }
}

impl Lists {
    pub fn new() -> Self
        ensures shapes { result.shapes ≡ replicate 32 0 }
        ensures numbers { result.numbers ≡ replicate 3072 0f }
        ensures radii { result.radii ≡ replicate 512 0f }
    {
        Lists {
            shapes: [0; 32],
            numbers: [0.0; 3072],
            radii: [0.0; 512],
        }
    }

    // The shape word of the last subpath, where the word that was read changes it.
    #[tactic(auto, unfolding(job::specs::Lists::put_shape))]
    pub fn put_shape(&mut self, seen: &Seen, word: Word)
        requires { seen.now.subpaths ≤ 32 }
        ensures shapes { self.new.shapes ≡ put_shape seen.now.subpaths word.kind seen.now.shape self.old.shapes }
        ensures numbers { self.new.numbers ≡ self.old.numbers }
        ensures radii { self.new.radii ≡ self.old.radii }
    {
        if matches!(word.kind, Kind::Subpath | Kind::X) {
            self.shapes[seen.subpaths.saturating_sub(1)] = seen.shape;
        }
    }

    // A coordinate of the last anchor. One of p stands in for both handles' until these come.
    #[tactic(auto, unfolding(job::specs::Lists::put_number, job::specs::Lists::put_coordinate))]
    pub fn put_number(&mut self, seen: &Seen, word: Word)
        requires { (seen.now.anchors ≤ 512) × (word.payload ≤ 268435456) }
        ensures shapes { self.new.shapes ≡ self.old.shapes }
        ensures numbers { self.new.numbers ≡ put_number seen.now.anchors word.kind word.payload self.old.numbers }
        ensures radii { self.new.radii ≡ self.old.radii }
    {
        let Some(coordinate) = coordinate(word.kind) else {
            return;
        };
        let at = seen.anchors.saturating_sub(1) * 6 + coordinate;
        let x = job::number(word.payload);
        self.numbers[at] = x;
        if coordinate < 2 {
            self.numbers[at + 2] = x;
            self.numbers[at + 4] = x;
        }
    }

    // The radius of the last anchor: 0 until it comes.
    #[tactic(auto, unfolding(job::specs::Lists::put_radius))]
    pub fn put_radius(&mut self, seen: &Seen, word: Word)
        requires { (seen.now.anchors ≤ 512) × (word.payload ≤ 268435456) }
        ensures shapes { self.new.shapes ≡ self.old.shapes }
        ensures numbers { self.new.numbers ≡ self.old.numbers }
        ensures radii { self.new.radii ≡ put_radius seen.now.anchors word.kind word.payload self.old.radii }
    {
        match word.kind {
            Kind::X => self.radii[seen.anchors.saturating_sub(1)] = 0.0,
            Kind::Radius => {
                self.radii[seen.anchors.saturating_sub(1)] = job::number(word.payload);
            }
            _ => {}
        }
    }
}
