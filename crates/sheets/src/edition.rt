// The edition of a sheet, which its second byte says.

ghost use Rattle.std.specs.Prelude.{◌≡◌, IfOk};
ghost use Rattle.filter_core.specs.Refusal.{number_in};
ghost use Rattle.sheets.specs.Edition.{edition_byte, edition_of, edition_refusal};

use filter_core::Refusal;

#[derive(Clone, Copy, Debug, Default, PartialEq, Eq)]
pub enum Edition {
    #[default]
    One,
    Two,
}

impl From<Edition> for u8 {
    ghost from_gives = { λ edition byte. byte ≡ edition_byte edition };

    fn from(edition: Edition) -> u8 {
        match edition {
            Edition::One => 0,
            Edition::Two => 2,
        }
    }
}

// A byte is a number in a sheet, and an edition behind this match. Any other than these is refused.
impl TryFrom<u8> for Edition {
    type Error = Refusal;

    ghost try_from_gives = { λ byte result. (number_in result ≡ edition_refusal byte) × IfOk result (λ edition. edition ≡ edition_of byte) };

    fn try_from(byte: u8) -> Result<Edition, Refusal> {
        match byte {
            0 => Ok(Edition::One),
            2 => Ok(Edition::Two),
            _ => Err(Refusal::Size),
        }
    }
}

// For a caller whose byte was checked: one that names no edition counts as edition 1's here.
pub fn edition_of(byte: u8) -> Edition
    ensures { result ≡ edition_of byte }
{
    Edition::try_from(byte).unwrap_or(Edition::One)
}
