// What is wrong with a line.

// Why a line is no call.
#[derive(Clone, Copy)]
pub enum BadLine {
    // Its first word is no keyword.
    NoCall,
    // The words behind do not fit it.
    Words,
}
