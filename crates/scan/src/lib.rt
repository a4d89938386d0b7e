// A byte, looked for in a text.
#![tactic(auto)]

ghost use Rattle.std.specs.Prelude.{◌≡◌, ◌<◌, ◌≤◌, IfSome, length};
ghost use Rattle.scan.specs.Scan.{first_from};

use memchr::memchr;

// The first place from `from` on where the byte stands.
pub fn find(s: &[u8], from: usize, byte: u8) -> Option<usize>
    ensures value { result ≡ first_from from byte s.now }
    ensures in_bounds { IfSome result (λ k. (from ≤ k) × (k < length s.now)) }
{
    let rest = s.get(from..)?;
    // A match and not `?`: the proof speaks of each case by its name, and the two wrong programs of this function are refused by these facts.
    match memchr(byte, rest) {
        Some(k) => Some(from + k),
        None => None,
    }
}
