// Text put behind what a buffer holds. What has no room is left out.

ghost use Rattle.std.specs.Prelude.{◌≡◌, ◌<◌, ◌++◌, take};
ghost use Rattle.digits.specs.Text.{glyph_of, byte_text, word_text, units_text};

use crate::unit::Unit;
use arrayvec::ArrayVec;

// By hand, since the kit's hex crate answers a Result, as its buffer may be of another length. These texts have always room, and go into an
// ArrayVec that may be too short.
fn glyph(d: u32) -> u8
    requires { d < 16 }
    ensures { result ≡ glyph_of d }
{
    if d < 10 {
        (48 + d) as u8
    } else {
        (87 + d) as u8
    }
}

pub(crate) fn byte_text(b: u8) -> [u8; 2]
    ensures { result ≡ byte_text b }
{
    let w = u32::from(b);
    [glyph(w / 16 % 16), glyph(w % 16)]
}

pub(crate) fn word_text(w: u32) -> [u8; 8]
    ensures { result ≡ word_text w }
{
    [
        glyph(w / 0x1000_0000 % 16),
        glyph(w / 0x100_0000 % 16),
        glyph(w / 0x10_0000 % 16),
        glyph(w / 0x1_0000 % 16),
        glyph(w / 0x1000 % 16),
        glyph(w / 0x100 % 16),
        glyph(w / 0x10 % 16),
        glyph(w % 16),
    ]
}

pub fn put<const N: usize>(text: &mut ArrayVec<u8, N>, bytes: &[u8])
    ensures { text.new.items ≡ take N (text.old.items ++ bytes.now) }
{
    let n = bytes.len().min(text.remaining_capacity());
    let _ = text.try_extend_from_slice(&bytes[..n]);
}

// Units, one after the other; `-` for none.
#[tactic(auto, using(crate::proofs::Putting::again, std::proofs::lemmas::List::take_more, std::proofs::lemmas::List::flat_map_more, std::proofs::lemmas::Grind::common_steps))]
pub fn put_units<T: Unit, const N: usize>(out: &mut ArrayVec<u8, N>, units: &[T])
    ensures { out.new.items ≡ take N (out.old.items ++ units_text T.text units.now) }
{
    match units.split_first() {
        Some((first, rest)) => {
            put(out, first.text().as_slice());
            for unit in rest {
                put(out, unit.text().as_slice());
            }
        }
        None => put(out, b"-"),
    }
}
