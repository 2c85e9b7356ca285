// A cut outline put together from places: the anchors in the order in which 000's `cut_corners` pushes them (document 01's gathering).
#![tactic(auto)]

mod outline;

pub use outline::assemble;
