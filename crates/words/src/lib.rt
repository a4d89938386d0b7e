// Words of 32 bits: from bytes, low byte first, and to binary32 and back.
// All NaNs are one value here, so of the NaN patterns only one comes back from binary32: the one that `other_nan` lets pass.
#![tactic(auto)]

ghost use Rattle.std.specs.Prelude.{◌≡◌, ◌+◌, get_or};
ghost use Rattle.std.specs.Float.{binary32};
ghost use Rattle.std.specs.Float.Ieee.{of_bits, to_bits};
ghost use Rattle.words.specs.Word.{word_of, word_from, other_nan};

use std::num;

pub fn word_to_f32(w: u32) -> f32
    ensures { result ≡ of_bits binary32 w }
{
    num::f32_from_bits_with_nan(w)
}

pub fn f32_to_word(x: f32) -> u32
    ensures { result ≡ to_bits binary32 x }
{
    num::f32_to_bits_with_nan(x)
}

#[tactic(auto, using(crate::proofs::Words::any_nan, crate::proofs::Words::nan_written))]
pub fn other_nan(w: u32) -> bool
    ensures { result ≡ other_nan w }
{
    w != 0x7fc0_0000 && w % 0x8000_0000 > 0x7f80_0000
}

fn word_of(a: u8, b: u8, c: u8, d: u8) -> u32
    ensures { result ≡ word_of a b c d }
{
    u32::from_le_bytes([a, b, c, d])
}

// The byte k places after `at`; 0 past the end, where the sum stays below what a length can be.
pub fn byte_at(bytes: &[u8], at: usize, k: usize) -> u8
    ensures { result ≡ get_or bytes.now (at + k) 0 }
{
    bytes.get(at.saturating_add(k)).copied().unwrap_or(0)
}

// The word whose low byte stands at `at`; bytes past the end count as 0.
pub fn word_at(bytes: &[u8], at: usize) -> u32
    ensures { result ≡ word_from bytes.now at }
{
    word_of(
        byte_at(bytes, at, 0),
        byte_at(bytes, at, 1),
        byte_at(bytes, at, 2),
        byte_at(bytes, at, 3),
    )
}
