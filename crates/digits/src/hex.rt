// Hexadecimal digits of either case, highest first.

ghost use Rattle.std.specs.Prelude.{◌≡◌, ◌<◌, ◌++◌, take};
ghost use Rattle.std.specs.Float.{binary32};
ghost use Rattle.std.specs.Float.Ieee.{of_bits};
ghost use Rattle.digits.specs.Hex.{hex_digit, all_hex, pair_of, byte_from, hex_word, units_of};

use crate::unit::Unit;
use arrayvec::ArrayVec;

// A match over a byte of text, which may be no digit.
fn digit(b: u8) -> Option<u8>
    ensures { result ≡ hex_digit b }
{
    match b {
        b'0'..=b'9' => Some(b - 48),
        b'A'..=b'F' => Some(b - 55),
        b'a'..=b'f' => Some(b - 87),
        _ => None,
    }
}

pub fn all_hex(s: &[u8]) -> bool
    ensures { result ≡ all_hex s.now }
{
    s.iter().all(|&b| digit(b).is_some())
}

// The byte of two digits. Any other byte of text counts as the digit 0, so that reading is total: `all_hex` says whether there are any.
// By hand, since the kit's hex crate answers an error for such a byte, and char::to_digit none.
fn pair(high: u8, low: u8) -> u8
    ensures { result ≡ pair_of high low }
{
    16 * digit(high).unwrap_or(0) + digit(low).unwrap_or(0)
}

// The byte whose two digits stand k places after `at`.
pub(crate) fn byte(s: &[u8], at: usize, k: usize) -> u8
    requires { k < 8 }
    ensures { result ≡ byte_from s.now at k }
{
    pair(words::byte_at(s, at, k), words::byte_at(s, at, k + 1))
}

// The word whose eight digits stand at `at`.
fn word(s: &[u8], at: usize) -> u32
    ensures { result ≡ hex_word s.now at }
{
    let bytes = [
        byte(s, at, 6),
        byte(s, at, 4),
        byte(s, at, 2),
        byte(s, at, 0),
    ];
    words::word_at(&bytes, 0)
}

// The word at `at` as a sample. Every NaN pattern is the one NaN.
pub fn sample(s: &[u8], at: usize) -> f32
    ensures { result ≡ of_bits binary32 (hex_word s.now at) }
{
    words::word_to_f32(word(s, at))
}

// The units of the text, put behind what `out` holds as far as there is room.
#[tactic(auto, using(crate::proofs::Putting::table_room, lists::proofs::Tables::table_none, lists::proofs::Tables::table_more, lists::proofs::Tables::length_table, std::proofs::lemmas::Grind::common_steps))]
pub fn units<T: Unit, const N: usize>(s: &[u8], out: &mut ArrayVec<T, N>)
    ensures { out.new.items ≡ take N (out.old.items ++ units_of T.DIGITS T.read_at s.now) }
{
    let n = (s.len() / T::DIGITS).min(out.remaining_capacity());
    for i in 0..n {
        out.push(T::read(s, T::DIGITS * i));
    }
}
