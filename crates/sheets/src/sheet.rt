// Bytes that have the size of a sheet, and what they hold.

ghost use Rattle.std.specs.Prelude.{◌≡◌, ◌+◌, ◌-◌, ◌*◌, ◌^◌, ◌<◌, min, length, IfOk};
ghost use Rattle.filter_core.specs.Refusal.{number_in};
ghost use Rattle.filter_core.specs.Rows.{◌then◌};
ghost use Rattle.sheets.specs.Refusal.{first_refusal};
ghost use Rattle.sheets.specs.Sheet.{Fits, size_refusal, setting_behind, entry_among, refusal_at, entry_number_refusal};

use crate::edition::Edition;
use crate::entry::{Entry, entry_of};
use crate::refusal::check_entry;
use filter_core::Refusal;

// Where the setting of entry e begins behind n kinds. Numbers that no sheet has give a place too, at most the last there is.
pub fn setting_place(n: usize, e: usize) -> usize
    ensures { result ≡ min (2 + n + 12 * e) (2 ^ 64 - 1) }
{
    e.saturating_mul(12).saturating_add(n.saturating_add(2))
}

// As many bytes as n entries take, to be read by an edition. Both readers make one, each in its way: n stands beside the bytes, since one takes
// it from their first byte, and the other from the first two.
#[derive(Clone, Copy)]
pub(crate) struct Sheet<'a> {
    edition: Edition,
    n: usize,
    bytes: &'a [u8],
    ghost fits: { Fits n bytes.now },
}

impl<'a> Sheet<'a> {
    pub(crate) fn sized(edition: Edition, n: usize, bytes: &'a [u8]) -> Result<Sheet<'a>, Refusal>
        ensures refusal { number_in result ≡ size_refusal (length bytes.now) n }
        ensures sheet { IfOk result (λ s. (s.edition ≡ edition) × (s.n ≡ n) × (s.bytes.now ≡ bytes.now)) }
    {
        if n < 1 || 64 < n || bytes.len() != 2 + 13 * n {
            return Err(Refusal::Size);
        }
        Ok(Sheet { edition, n, bytes })
    }

    pub(crate) fn setting(&self, e: usize) -> &'a [u8]
        requires { e < self.now.n }
        ensures { result.now ≡ setting_behind self.now.n self.now.bytes.now e }
    {
        let at = setting_place(self.n, e);
        &self.bytes[at..at + 12]
    }

    fn entry(&self, e: usize) -> Entry
        requires { e < self.now.n }
        ensures { result ≡ entry_among self.now.n self.now.bytes.now e }
    {
        entry_of(words::byte_at(self.bytes, 2, e), self.setting(e))
    }

    // Entry by entry. A counted loop, as 01 asks: its number is that of the entry, whose kind and setting stand apart in the bytes.
    #[tactic(auto, using(crate::proofs::Checks::first_start, crate::proofs::Checks::first_again, crate::proofs::Checks::first_refused))]
    pub(crate) fn check(&self) -> Result<(), Refusal>
        ensures { number_in result ≡ first_refusal self.now.n (refusal_at self.now.edition self.now.n self.now.bytes.now) }
    {
        for e in 0..self.n {
            check_entry(self.edition, self.entry(e))?;
        }
        Ok(())
    }

    // The setting of entry e as a part of the sheet.
    pub(crate) fn lookup(&self, e: usize) -> Result<&'a [u8], Refusal>
        ensures refusal { number_in result
            ≡ (first_refusal self.now.n (refusal_at self.now.edition self.now.n self.now.bytes.now) then entry_number_refusal self.now.n e) }
        ensures part { IfOk result (λ part. part.now ≡ setting_behind self.now.n self.now.bytes.now e) }
    {
        self.check()?;
        check_number(e, self.n)?;
        Ok(self.setting(e))
    }
}

// Whether e is the number of one of n entries.
fn check_number(e: usize, n: usize) -> Result<(), Refusal>
    ensures { number_in result ≡ entry_number_refusal n e }
{
    if e < n { Ok(()) } else { Err(Refusal::Entry) }
}
