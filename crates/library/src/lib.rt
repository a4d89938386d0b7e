// A library: a sheet's entries and its edition, held by value.
#![tactic(auto)]

ghost use Rattle.std.specs.Prelude.{◌≡◌, ◌+◌, ◌*◌, ◌≤◌, ◌<◌, [], ◌∷◌, length, replicate, IfOk};
ghost use Rattle.std.specs.List.{flat_map};
ghost use Rattle.filter_core.specs.Refusal.{number_in};
ghost use Rattle.lists.specs.Over.{over, Puts};
ghost use Rattle.sheets.specs.Sheet.{entries_of, check_of, Fits};
ghost use Rattle.library.specs.Library.{none, stored_in, library_of, bytes_of, write_refusal, write_number, sheet_length, written_of, entry_at};
ghost use Rattle.library.specs.Rows.{WriteByRows};
ghost use Rattle.library.specs.RoundTrip.{ReadWrite, WriteRead, RefusedWrite, OneSheet, SameEntries};

use bounded_vec::{Blank, BoundedVec};
use filter_core::Refusal;
use sheets::{Edition, Entry};

// An entry's bytes, as they stand in the sheet.
#[derive(Clone, Copy, Debug, Default, PartialEq, Eq)]
pub struct StoredEntry {
    pub kind: u8,
    pub setting: [u8; 12],
}

// A place without an entry has zeros.
impl Blank for StoredEntry {
    ghost blank = { record { kind = 0; setting = replicate 12 0 } };

    fn blank() -> StoredEntry {
        StoredEntry::default()
    }
}

// No sheet has more than 64 entries.
#[derive(Clone, Copy, Debug, Default, PartialEq, Eq)]
pub struct Library {
    pub edition: Edition,
    pub entries: BoundedVec<StoredEntry, 64>,
}

// The library of a frame that has opened no sheet.
pub fn none() -> Library
    ensures { result ≡ none }
{
    Library::default()
}

// ---- reading

// Entry e of a sheet.
fn stored_in(sheet: &[u8], e: usize) -> StoredEntry
    requires { Fits (entries_of sheet.now) sheet.now × (e < entries_of sheet.now) }
    ensures { result ≡ stored_in sheet.now e }
{
    let at = sheets::setting_place(sheets::entries(sheet), e);
    let mut setting = [0; 12];
    setting.copy_from_slice(&sheet[at..at + 12]);
    StoredEntry {
        kind: sheet[2 + e],
        setting,
    }
}

#[tactic(auto, using(lists::proofs::Tables::table_none, lists::proofs::Tables::table_more, crate::proofs::Tables::table_room))]
fn library_of(sheet: &[u8]) -> Library
    requires { Fits (entries_of sheet.now) sheet.now }
    ensures { result ≡ library_of sheet.now }
{
    let mut library = Library {
        edition: sheets::edition_in(sheet),
        entries: BoundedVec::new(),
    };
    // A counted loop, as 01 asks: `collect` could fail past 64 entries, and no sheet has so many.
    for e in 0..sheets::entries(sheet) {
        library.entries.push(stored_in(sheet, e));
    }
    library
}

// The sheet's library; what is no sheet has none.
pub fn read(sheet: &[u8]) -> Result<Library, Refusal>
    ensures refusal { number_in result ≡ check_of sheet.now }
    ensures library { IfOk result (λ library. library ≡ library_of sheet.now) }
{
    sheets::check(sheet)?;
    Ok(library_of(sheet))
}

// ---- writing

// The length of a sheet of n entries, where a write to so much room is accepted.
fn check_write(n: usize, room: usize) -> Result<usize, Refusal>
    requires { n ≤ 64 }
    ensures refusal { number_in result ≡ write_refusal n room }
    ensures length { IfOk result (λ length. length ≡ 2 + 13 * n) }
{
    if n < 1 {
        return Err(Refusal::Size);
    }
    let length = 2 + 13 * n;
    lists::check_room(length, room)?;
    Ok(length)
}

// A place goes through these three: they write into the lent buffer itself, where a sheet of 834 bytes would be memory more, and a copy.
#[tactic(auto, using(lists::proofs::Over::over_none, std::proofs::lemmas::List::take_all))]
fn put_kinds(entries: &[StoredEntry], output: &mut [u8], from: usize) -> usize
    ensures { Puts from (flat_map (λ t. t.kind ∷ []) entries.now) output.old result output.new }
{
    let mut at = from;
    for entry in entries {
        at = lists::put(&[entry.kind], output, at);
    }
    at
}

// The same for the settings. One function for both would take a closure, and a ghost function for its contract: it is longer than the two.
#[tactic(auto, using(lists::proofs::Over::over_none, std::proofs::lemmas::List::take_all))]
fn put_settings(entries: &[StoredEntry], output: &mut [u8], from: usize) -> usize
    ensures { Puts from (flat_map (λ t. t.setting) entries.now) output.old result output.new }
{
    let mut at = from;
    for entry in entries {
        at = lists::put(&entry.setting, output, at);
    }
    at
}

fn put_sheet(library: &Library, output: &mut [u8])
    ensures { output.new ≡ over 0 (bytes_of library.now) output.old }
{
    let entries = library.entries.as_slice();
    let front = [entries.len() as u8, u8::from(library.edition)];
    let kinds = lists::put(&front, output, 0);
    let settings = put_kinds(entries, output, kinds);
    put_settings(entries, output, settings);
}

// Writes the library's sheet, and answers its length. A refused write leaves every byte.
pub fn write(library: &Library, output: &mut [u8]) -> Result<usize, Refusal>
    ensures refusal { number_in result ≡ write_number library.now output.old }
    ensures length { IfOk result (λ length. length ≡ sheet_length library.now) }
    ensures output_after { output.new ≡ written_of library.now output.old }
{
    let length = check_write(library.entries.len(), output.len())?;
    put_sheet(library, output);
    Ok(length)
}

// ---- an entry

// Entry e of a library. A place past the last has the kind byte 0 and zeros for words.
pub fn entry_at(library: &Library, e: usize) -> Entry
    ensures { result ≡ entry_at library.now e }
{
    library
        .entries
        .get(e)
        .map(|entry| sheets::entry_of(entry.kind, &entry.setting))
        .unwrap_or_default()
}

// ---- the theorems

// `write` answers each number in its row's case of the refusal table, and in no other.
pub fn write_by_rows()
    ensures { WriteByRows }
{}

// Reading a sheet and writing its library gives the sheet's bytes.
pub fn read_write()
    ensures { ReadWrite }
{}

// Writing a sheet's library and reading it gives the library.
pub fn write_read()
    ensures { WriteRead }
{}

// A refused write leaves every byte of the output.
#[tactic(auto, using(crate::proofs::RoundTrip::refused_write))]
pub fn refused_write()
    ensures { RefusedWrite }
{}

// Two different sheets are never the same library.
#[tactic(auto, using(crate::proofs::RoundTrip::one_sheet))]
pub fn one_sheet()
    ensures { OneSheet }
{}

// The library's entries and its edition are the sheet's.
pub fn same_entries()
    ensures { SameEntries }
{}
