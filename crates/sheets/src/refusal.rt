// The check of an entry: its kind, its words and its frequency, in that order.

ghost use Rattle.std.specs.Prelude.{◌≡◌};
ghost use Rattle.filter_core.specs.Refusal.{number_in};
ghost use Rattle.sheets.specs.Refusal.{used, word_refusal, words_refusal, word_frequency_refusal, setting_refusal, entry_refusal};

use crate::edition::Edition;
use crate::entry::Entry;
use crate::setter::{Setter, setter_in};
use filter_core::{FrequencyApproximation, Refusal};

fn words_used(setter: Setter) -> u8
    ensures { result ≡ used setter }
{
    // By the setter's own cases.
    match setter {
        Setter::DcBlocker | Setter::OnePole(_) => 1,
        Setter::SvfCoefficients => 3,
        _ => 2,
    }
}

// The word at the place k of an entry that uses the first so many.
fn check_word(used: u8, k: u8, w: u32) -> Result<(), Refusal>
    ensures { number_in result ≡ word_refusal used k w }
{
    let right = if k < used {
        !words::other_nan(w)
    } else {
        w == 0
    };
    if right { Ok(()) } else { Err(Refusal::Word) }
}

// The words are public fields with 01's names, so each is named with its place: an array of them would be a loop for three lines.
fn check_words(used: u8, entry: Entry) -> Result<(), Refusal>
    ensures { number_in result ≡ words_refusal used entry }
{
    check_word(used, 0, entry.a)?;
    check_word(used, 1, entry.b)?;
    check_word(used, 2, entry.c)
}

fn check_frequency(a: u32, approximation: FrequencyApproximation) -> Result<(), Refusal>
    ensures { number_in result ≡ word_frequency_refusal a approximation }
{
    filter_core::check_frequency(words::word_to_f32(a), approximation)
}

fn check_setting(setter: Setter, a: u32) -> Result<(), Refusal>
    ensures { number_in result ≡ setting_refusal setter a }
{
    // By the setter's own cases.
    match setter {
        Setter::OnePole(p) | Setter::SvfFrequency(p) | Setter::NaiveSvf(p) => check_frequency(a, p),
        _ => Ok(()),
    }
}

#[tactic(auto, unfolding(crate::specs::Refusal::entry_refusal))]
pub(crate) fn check_entry(edition: Edition, entry: Entry) -> Result<(), Refusal>
    ensures { number_in result ≡ entry_refusal edition entry }
{
    let setter = setter_in(edition, entry.kind).ok_or(Refusal::Kind)?;
    check_words(words_used(setter), entry)?;
    check_setting(setter, entry.a)
}
