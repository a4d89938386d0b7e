// The functions of sheet_exports for C to link: the same name, the same values lent and the same clauses for each, and nothing else.
// A refusal is a number here too.

#![tactic(auto)]

ghost use Rattle.std.specs.Prelude.{◌≡◌, ◌+◌, ◌*◌, length, take, drop};
ghost use Rattle.filter_core.specs.Refusal.{unless_refused};
ghost use Rattle.sheets.specs.Sheet.{entries_of, check_of, check_entry_of, lookup_of};

// The number that opening the sheet gives, 0 if it is a sheet.
#[unsafe(no_mangle)]
pub extern "C" fn sheet_check(sheet: &[u8]) -> u8
    ensures { result ≡ check_of sheet.now }
{
    sheet_exports::sheet_check(sheet)
}

// The number that looking up entry e gives. Where that is 0, `place` becomes the place in the sheet at which the entry's setting begins:
// an exported function can hand back no part of what it was lent.
#[unsafe(no_mangle)]
pub extern "C" fn sheet_lookup(sheet: &[u8], e: usize, place: &mut usize) -> u8
    ensures value { result ≡ check_entry_of sheet.now e }
    ensures place_after { place.new
        ≡ unless_refused (check_entry_of sheet.now e) place.old (2 + entries_of sheet.now + 12 * e) }
    ensures sheet_after { take (length (lookup_of sheet.now e)) (drop place.new sheet.now) ≡ lookup_of sheet.now e }
{
    sheet_exports::sheet_lookup(sheet, e, place)
}
