// An entry: its kind byte and its three words, as they stand in the sheet. The words are public and have 01's names, so they are fields and no
// array.

ghost use Rattle.std.specs.Prelude.{◌≡◌};
ghost use Rattle.sheets.specs.Sheet.{entry_of};

#[derive(Clone, Copy, Debug, Default, PartialEq, Eq)]
pub struct Entry {
    pub kind: u8,
    pub a: u32,
    pub b: u32,
    pub c: u32,
}

// The entry of a kind byte and a setting's bytes; bytes that are not there count as 0.
pub fn entry_of(kind: u8, setting: &[u8]) -> Entry
    ensures { result ≡ entry_of kind setting.now }
{
    Entry {
        kind,
        a: words::word_at(setting, 0),
        b: words::word_at(setting, 4),
        c: words::word_at(setting, 8),
    }
}
