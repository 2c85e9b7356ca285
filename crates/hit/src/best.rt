// `Best`: the nearest of the candidates tried so far. A root is taken only of a square below the bar, so of few.
ghost use Rattle.std.specs.Prelude.{◌≡◌, true, None};
ghost use Rattle.real.specs.Limit.{in_limit};
ghost use Rattle.hit.specs.Best.{taken, Barred};

use geom::P;

// A candidate, and how far away it lies.
#[derive(Clone, Copy, Debug, PartialEq)]
pub struct Candidate {
    pub number: usize,
    pub dist: f64,
}

// Kept: `Barred` in the clauses and not an invariant, since it speaks of `tol` too, which a `Best` does not hold.
#[derive(Clone, Copy, Debug, PartialEq)]
pub struct Best {
    pub nearest: Option<Candidate>,
    // A vector whose square is not below it cannot be nearer.
    pub bar: f64,
}

impl Best {
    // Nothing yet. The bar is guessed, a little above tol's square, and its root compared with tol: nothing rests on the guess.
    pub fn nothing(tol: f64) -> Best
        requires { in_limit tol ≡ true }
        ensures found { result.nearest ≡ None }
        ensures bar { Barred tol result }
    {
        let near = tol * 1.0000001;
        let guess = near * near + 1e-300;
        Best {
            nearest: None,
            bar: if tol < root::root(guess) {
                guess
            } else {
                f64::INFINITY
            },
        }
    }

    // The best after candidate i, which lies d away.
    pub fn take(self, i: usize, d: P, tol: f64) -> Best
        requires { Barred tol self }
        ensures best { result ≡ taken tol self i d }
        ensures bar { Barred tol result }
    {
        let square = d.dot(d);
        if self.bar <= square {
            return self;
        }
        let dist = root::root(square);
        // Kept: two returns; one test with an `else` was tried, and `hit_segment` took 8 per cent longer.
        if !(dist <= tol) {
            return self;
        }
        if !self.nearest.is_none_or(|c| dist < c.dist) {
            return self;
        }
        Best {
            nearest: Some(Candidate { number: i, dist }),
            bar: square,
        }
    }
}
