// EDITION, which is `1` or `2`.

ghost use Rattle.std.specs.Prelude.{◌≡◌};
ghost use Rattle.call_text.specs.Edition.{edition_of};

use sheets::Edition;

// A match over the text of a line, which names the edition.
pub(crate) fn edition_of(s: &[u8]) -> Option<Edition>
    ensures { result ≡ edition_of s.now }
{
    match s {
        b"1" => Some(Edition::One),
        b"2" => Some(Edition::Two),
        _ => None,
    }
}
