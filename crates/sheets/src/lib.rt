// Motif sheets: what a sheet's bytes say, and why they are refused.
#![tactic(auto)]

mod edition;
mod edition_one;
mod entry;
mod reader;
mod refusal;
mod setter;
mod sheet;

ghost use Rattle.sheets.specs.Editions.{BothEditions};
ghost use Rattle.sheets.specs.Rows.{CheckByRows, WordsReturn};
ghost use Rattle.sheets.specs.Setters.{AsSetters};

pub use edition::{Edition, edition_of};
pub use edition_one::{
    check_edition_one, check_entry_edition_one, lookup_edition_one, part_of_edition_one,
};
pub use entry::{Entry, entry_of};
pub use reader::{check, check_entry, edition_in, entries, lookup, part_of};
pub use setter::{Setter, setter_in, setter_of};
pub use sheet::setting_place;

// `check` and `check_entry` answer each number in its row's case of the refusal table, and in no other.
pub fn check_by_rows()
    ensures { CheckByRows }
{}

// Every word of a sheet comes back when converted to binary32 and back.
pub fn words_return()
    ensures { WordsReturn }
{}

// A reader of edition 1 declines whatever says edition 2, and answers all else as the reader of both does. Edition 2 takes what edition 1
// takes, and a kind byte that both take names one setter.
#[tactic(auto, using(crate::proofs::Editions::both_editions))]
pub fn both_editions()
    ensures { BothEditions }
{}

// A sheet's 11 is the setter's: an entry that is right otherwise is refused exactly as its setter refuses it.
#[tactic(auto, using(crate::proofs::Setters::as_setters))]
pub fn as_setters()
    ensures { AsSetters }
{}
