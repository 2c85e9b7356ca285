// `Row`: what the first pass of the cut hands on of a corner.
use geom::P;

// A corner whose curved sides are not yet measured: the unit directions of its sides, their lengths or what stands for them, and how far
// along them the cut that is asked for would reach.
#[derive(Clone, Copy, Debug, PartialEq)]
pub struct Row {
    pub u: P,
    pub v: P,
    pub lu: f64,
    pub lv: f64,
    pub asked: f64,
}
