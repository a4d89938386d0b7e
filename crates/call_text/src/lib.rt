// A line of the text of calls, read into the call that it asks for.
// Nothing here has a `requires`: any bytes of any length are read as a call, as a line with no answer, or as a bad line.
#![tactic(auto)]

mod bad_line;
mod buffer;
mod edition;
mod keyword;
mod line;

pub use bad_line::BadLine;
pub use line::{Call, call_of};
