// The call that reads a job file, word by word, into a drawing's lists.
#![tactic(auto)]

mod call;
mod lists;
mod result;

pub use call::read;
pub use result::Read;
