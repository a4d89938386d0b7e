// The converter (02 f): a sheet of either edition as a sheet of the one that is wanted. It needs no frame, and touches none.
#![tactic(auto)]

ghost use Rattle.std.specs.Prelude.{◌≡◌, IfOk};
ghost use Rattle.filter_core.specs.Refusal.{number_in};
ghost use Rattle.conversion.specs.Conversion.{series_refusal, series_among, wanted_refusal, put_over, convert_number, convert_length, converted_of};
ghost use Rattle.conversion.specs.Rows.{ConvertByRows};
ghost use Rattle.conversion.specs.Converted.{Conversions};

use filter_core::{FrequencyApproximation, Refusal};
use sheets::Edition;

// ---- the refusals

// A kind byte's high half is the approximation.
fn check_series(kind: u8) -> Result<(), Refusal>
    ensures { number_in result ≡ series_refusal kind }
{
    match FrequencyApproximation::try_from(u32::from(kind / 16)) {
        Ok(FrequencyApproximation::Series) => Err(Refusal::Series),
        _ => Ok(()),
    }
}

#[tactic(auto, using(sheets::proofs::Checks::first_start, sheets::proofs::Checks::first_again, sheets::proofs::Checks::first_refused))]
fn check_series_among(n: usize, sheet: &[u8]) -> Result<(), Refusal>
    ensures { number_in result ≡ series_among n sheet.now }
{
    // A counted loop, as 01 asks. No plainer: an iterator over the part of the kinds asks for a sheet's size first, and for a law of the part.
    for e in 0..n {
        check_series(words::byte_at(sheet, 2, e))?;
    }
    Ok(())
}

fn check_wanted(wanted: Edition, sheet: &[u8]) -> Result<(), Refusal>
    ensures { number_in result ≡ wanted_refusal wanted sheet.now }
{
    match wanted {
        Edition::One => check_series_among(sheets::entries(sheet), sheet),
        Edition::Two => Ok(()),
    }
}

// ---- the converter

// The sheet, and then the edition's byte over its second place.
fn put_sheet(wanted: Edition, sheet: &[u8], output: &mut [u8])
    ensures { output.new ≡ put_over wanted sheet.now output.old }
{
    lists::copy(sheet, output, 0);
    lists::copy(&[u8::from(wanted)], output, 1);
}

// Writes the sheet in the wanted edition, and answers its length, as `library::write` does; a refused call leaves every byte. A sheet that is
// in that edition already is copied. Places behind the sheet keep their contents.
pub fn convert(wanted: Edition, sheet: &[u8], output: &mut [u8]) -> Result<usize, Refusal>
    ensures refusal { number_in result ≡ convert_number wanted sheet.now output.old }
    ensures answer { IfOk result (λ answer. answer ≡ convert_length sheet.now) }
    ensures output_after { output.new ≡ converted_of wanted sheet.now output.old }
{
    sheets::check(sheet)?;
    check_wanted(wanted, sheet)?;
    lists::check_room(sheet.len(), output.len())?;
    put_sheet(wanted, sheet, output);
    Ok(sheet.len())
}

// ---- the theorems

// `convert` answers each number in its row's case, and in no other.
pub fn convert_by_rows()
    ensures { ConvertByRows }
{}

// What a conversion makes of a sheet, what it leaves of the output, and that it can be undone.
#[tactic(auto, using(crate::proofs::Converted::conversions))]
pub fn conversions()
    ensures { Conversions }
{}
