// Words of a record.

use std::array;

// The record that a block holds.
pub(crate) fn record(block: &[u8; 272]) -> [u32; 68] {
    array::from_fn(|i| words::word_at(block, i.saturating_mul(4)))
}

// The word at a place, 0 past the end.
fn word_at(w: &[u32; 68], at: usize) -> u32 {
    w.get(at).copied().unwrap_or(0)
}

// Eight words from the place `at` on, as floats; 0 past the end.
pub(crate) fn eight(w: &[u32; 68], at: usize) -> [f32; 8] {
    array::from_fn(|i| words::word_to_f32(word_at(w, at.saturating_add(i))))
}

// Whether eight floats are the words from the place `at` on. Word by word, since a NaN is not equal to itself.
pub(crate) fn same(x: &[f32; 8], w: &[u32; 68], at: usize) -> bool {
    x.iter().enumerate().all(|(i, x)| words::f32_to_word(*x) == word_at(w, at.saturating_add(i)))
}
