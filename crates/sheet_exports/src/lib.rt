// The sheet reader for C to call, for a machine that has room for no more than that. C has no Result: so a refusal is a number.
#![tactic(auto)]

ghost use Rattle.std.specs.Prelude.{◌≡◌, ◌+◌, ◌*◌, length, take, drop};
ghost use Rattle.filter_core.specs.Refusal.{unless_refused};
ghost use Rattle.sheets.specs.Sheet.{entries_of, check_of, check_entry_of, lookup_of};

// The number that opening the sheet gives, 0 if it is a sheet.
pub fn sheet_check(sheet: &[u8]) -> u8
    ensures { result ≡ check_of sheet.now }
{
    filter_core::number_in(sheets::check(sheet))
}

// The number that looking up entry e gives. Where that is 0, `place` becomes the place in the sheet at which the entry's setting begins:
// an exported function can hand back no part of what it was lent.
pub fn sheet_lookup(sheet: &[u8], e: usize, place: &mut usize) -> u8
    ensures value { result ≡ check_entry_of sheet.now e }
    ensures place_after { place.new
        ≡ unless_refused (check_entry_of sheet.now e) place.old (2 + entries_of sheet.now + 12 * e) }
    ensures sheet_after { take (length (lookup_of sheet.now e)) (drop place.new sheet.now) ≡ lookup_of sheet.now e }
{
    let checked = sheets::check_entry(sheet, e);
    if checked.is_ok() {
        *place = sheets::setting_place(sheets::entries(sheet), e);
    }
    filter_core::number_in(checked)
}
