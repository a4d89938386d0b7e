// A reader that knows edition 1 only, beside the one of both, for programs that know no other.

ghost use Rattle.std.specs.Prelude.{◌≡◌, IfOk};
ghost use Rattle.filter_core.specs.Refusal.{number_in};
ghost use Rattle.sheets.specs.EditionOne.{entries_one, check_one, check_entry_one, lookup_one};

use crate::edition::Edition;
use crate::sheet::Sheet;
use filter_core::Refusal;

// The two bytes of n; those that are not there count as 0.
fn entries(sheet: &[u8]) -> usize
    ensures { result ≡ entries_one sheet.now }
{
    usize::from(words::byte_at(sheet, 0, 0)) + 256 * usize::from(words::byte_at(sheet, 0, 1))
}

// The calls of reader.rt again, since these take n from two bytes, and ask for no edition.
pub fn check_edition_one(sheet: &[u8]) -> Result<(), Refusal>
    ensures { number_in result ≡ check_one sheet.now }
{
    Sheet::sized(Edition::One, entries(sheet), sheet)?.check()
}

pub fn lookup_edition_one(sheet: &[u8], e: usize) -> Result<&[u8], Refusal>
    ensures refusal { number_in result ≡ check_entry_one sheet.now e }
    ensures part { IfOk result (λ part. part.now ≡ lookup_one sheet.now e) }
{
    Sheet::sized(Edition::One, entries(sheet), sheet)?.lookup(e)
}

// As `part_of`.
pub fn part_of_edition_one(sheet: &[u8], e: usize) -> &[u8]
    ensures { result.now ≡ lookup_one sheet.now e }
{
    lookup_edition_one(sheet, e).unwrap_or(&[])
}

pub fn check_entry_edition_one(sheet: &[u8], e: usize) -> Result<(), Refusal>
    ensures { number_in result ≡ check_entry_one sheet.now e }
{
    lookup_edition_one(sheet, e)?;
    Ok(())
}
