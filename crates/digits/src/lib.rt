// Numbers, words and bytes as text: read from slices of ASCII, and put into buffers.
#![tactic(auto)]

mod decimal;
mod hex;
mod output;
mod unit;

pub use decimal::number_of;
pub use hex::{all_hex, sample, units};
pub use output::{put, put_units};
pub use unit::Unit;
