// What the program `patch` prints for a job: every decision, from the job's bytes to the line's.
#![tactic(auto)]

mod drawing_line;
mod job_line;
mod path_line;
mod refused;

pub use job_line::print;
pub use path_line::put_path;
pub use refused::{add_refused, put_refusal, put_refused};
