// What the calls that cut a drawing share, the plain cut and those on the cut cache: every subpath cut, and the outline of the
// places handed over.
#![tactic(auto)]

mod drawing;
mod handing;

pub use drawing::lay_drawing;
pub use handing::hand_over;
