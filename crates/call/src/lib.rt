// What the calls on paths share: how a path that is given is tested, what such a call answers, and how a path that was made is handed over.
#![tactic(auto)]

mod answers;
mod handing;
mod opening;

pub use answers::Outline;
pub use handing::hand_over;
pub use opening::{open_drawing, open_path};
