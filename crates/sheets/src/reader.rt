// The reader of both editions: a sheet's edition and its size, then entry by entry.

ghost use Rattle.std.specs.Prelude.{◌≡◌, length, get_or, IfOk};
ghost use Rattle.filter_core.specs.Refusal.{number_in};
ghost use Rattle.filter_core.specs.Rows.{◌then◌};
ghost use Rattle.sheets.specs.Edition.{edition_refusal};
ghost use Rattle.sheets.specs.Sheet.{entries_of, edition_in, size_refusal, check_of, check_entry_of, lookup_of};

use crate::edition::{Edition, edition_of};
use crate::sheet::Sheet;
use filter_core::Refusal;

// How many entries the first byte announces; a byte that is not there counts as 0.
pub fn entries(sheet: &[u8]) -> usize
    ensures { result ≡ entries_of sheet.now }
{
    usize::from(words::byte_at(sheet, 0, 0))
}

// The edition that the second byte names. A byte that names none counts as edition 1's here; `check` refuses it.
pub fn edition_in(sheet: &[u8]) -> Edition
    ensures { result ≡ edition_in sheet.now }
{
    edition_of(words::byte_at(sheet, 0, 1))
}

// A sheet by its edition and its size; its entries are not checked yet.
fn opened(sheet: &[u8]) -> Result<Sheet<'_>, Refusal>
    ensures refusal { number_in result ≡ (edition_refusal (get_or sheet.now 1 0) then size_refusal (length sheet.now) (entries_of sheet.now)) }
    ensures sheet { IfOk result (λ s. (s.edition ≡ edition_in sheet.now) × (s.n ≡ entries_of sheet.now) × (s.bytes.now ≡ sheet.now)) }
{
    let edition = Edition::try_from(words::byte_at(sheet, 0, 1))?;
    Sheet::sized(edition, entries(sheet), sheet)
}

// Refuses what is no sheet.
pub fn check(sheet: &[u8]) -> Result<(), Refusal>
    ensures { number_in result ≡ check_of sheet.now }
{
    opened(sheet)?.check()
}

// The setting of entry e as a part of the sheet: refuses what `check` refuses, and then an e that is no entry's number.
pub fn lookup(sheet: &[u8], e: usize) -> Result<&[u8], Refusal>
    ensures refusal { number_in result ≡ check_entry_of sheet.now e }
    ensures part { IfOk result (λ part. part.now ≡ lookup_of sheet.now e) }
{
    opened(sheet)?.lookup(e)
}

// The same part, and an empty one of what `lookup` refuses: this cannot fail.
pub fn part_of(sheet: &[u8], e: usize) -> &[u8]
    ensures { result.now ≡ lookup_of sheet.now e }
{
    lookup(sheet, e).unwrap_or(&[])
}

// Refuses what `lookup` refuses.
pub fn check_entry(sheet: &[u8], e: usize) -> Result<(), Refusal>
    ensures { number_in result ≡ check_entry_of sheet.now e }
{
    lookup(sheet, e)?;
    Ok(())
}
