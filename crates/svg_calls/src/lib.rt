// The calls that write text: the SVG path data of a path, and a number.
#![tactic(auto)]

mod calls;

pub use calls::{to_svg_d, write_num};
