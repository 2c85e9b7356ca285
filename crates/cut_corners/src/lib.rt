// The call `cut_corners`: a drawing's corners cut, to lent lists.
#![tactic(auto)]

mod calls;

pub use calls::cut_corners;
