// A number as decimal text, put into a lent list.
#![tactic(auto)]

mod bytes;
mod lengths;
mod rounding;
mod text;
mod writing;

pub use bytes::{put, put_bytes};
pub use text::Text;
pub use writing::{put_whole, write_num};
