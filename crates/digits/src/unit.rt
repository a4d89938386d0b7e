// What is written in hexadecimal digits, always as many: a byte in two, a sample in eight.

ghost use Rattle.std.specs.Prelude.{◌≡◌, ℕ, ◌<◌, List};
ghost use Rattle.std.proofs.Common.{lit<};
ghost use Rattle.digits.specs.Hex.{byte_read, sample_read};
ghost use Rattle.digits.specs.Text.{byte_text, sample_text};

use crate::hex::{byte, sample};
use crate::output::{byte_text, put, word_text};
use arrayvec::ArrayVec;

pub trait Unit: Copy {
    const DIGITS: usize;

    ghost DIGITS: { ℕ };

    ghost read_at: { List ℕ → ℕ → Self };

    ghost text: { Self → List ℕ };

    ghost some: { 0 < DIGITS };

    // The unit whose digits stand at `at`.
    fn read(s: &[u8], at: usize) -> Self
        ensures { result ≡ read_at s.now at };

    // Its digits, eight at most.
    fn text(self) -> ArrayVec<u8, 8>
        ensures { result.items ≡ text self };
}

impl Unit for u8 {
    const DIGITS: usize = 2;

    ghost DIGITS = { 2 };

    ghost read_at = { byte_read };

    ghost text = { byte_text };

    ghost some = { lit< tt };

    fn read(s: &[u8], at: usize) -> u8 {
        byte(s, at, 0)
    }

    fn text(self) -> ArrayVec<u8, 8> {
        let mut text = ArrayVec::new();
        put(&mut text, &byte_text(self));
        text
    }
}

impl Unit for f32 {
    const DIGITS: usize = 8;

    ghost DIGITS = { 8 };

    ghost read_at = { sample_read };

    ghost text = { sample_text };

    ghost some = { lit< tt };

    fn read(s: &[u8], at: usize) -> f32 {
        sample(s, at)
    }

    fn text(self) -> ArrayVec<u8, 8> {
        let mut text = ArrayVec::new();
        put(&mut text, &word_text(words::f32_to_word(self)));
        text
    }
}
