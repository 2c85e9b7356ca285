// SVG path data of a path, put into a lent list.
#![tactic(auto)]

mod commands;
mod outline;

pub use outline::put_path;
