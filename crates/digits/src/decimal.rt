// A decimal number: 1 to 20 digits, at most 2^64 - 1.

ghost use Rattle.std.specs.Prelude.{◌≡◌};
ghost use Rattle.digits.specs.Decimal.{digit_of, number_of};

// A match over a byte of text, which may be no digit.
fn digit(b: u8) -> Option<usize>
    ensures { result ≡ digit_of b }
{
    match b {
        b'0'..=b'9' => Some(usize::from(b - b'0')),
        _ => None,
    }
}

#[tactic(auto, using(crate::proofs::Reading::large, crate::proofs::Reading::read_more, crate::proofs::Reading::read_all, std::proofs::lemmas::Grind::common_steps))]
pub fn number_of(s: &[u8]) -> Option<usize>
    ensures { result ≡ number_of s.now }
{
    if s.is_empty() || 20 < s.len() {
        return None;
    }
    let mut value = 0usize;
    for &b in s {
        let d = digit(b)?;
        value = value.checked_mul(10)?.checked_add(d)?;
    }
    Some(value)
}
