// The frame from the command line: reads calls as text, one to a line, makes each on one frame, and writes an answer line for each.
// The memory is fixed, whatever the length of the input. A program has no exit status of its own: what fails is said on standard error,
// and then nothing more is read or answered.
#![tactic(auto)]

mod answers;
mod faults;
mod help;
mod input;
mod output;
mod shown;
mod text;

use std::env::{Env, FillError};
use text::Output;

// Whether the program was started with an argument behind its name, of whatever bytes.
fn has_argument(rt: HostRuntime) -> bool {
    let mut first = [0u8; 1];
    match rt.arg(1, &mut first) {
        Err(FillError::NotPresent) => false,
        _ => true,
    }
}

// The input has room for a line of the greatest length and its line feed.
fn main(rt: HostRuntime) {
    if has_argument(rt) {
        help::print(rt);
        return;
    }
    let mut buffer = [0u8; 65536];
    let mut out = Output::new();
    input::serve(rt, &mut buffer, &mut out);
}
