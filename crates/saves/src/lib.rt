// A save of the library (02 h). It keeps the bytes of the sheet that it began with, and hands them out part by part; what is opened in the
// meantime does not reach it.
#![tactic(auto)]

ghost use Rattle.std.specs.Prelude.{◌≡◌, length, IfOk};
ghost use Rattle.filter_core.specs.Refusal.{number_in};
ghost use Rattle.library.specs.Library.{write_number};
ghost use Rattle.saves.specs.Save.{zero_bytes, no_save, left_of, unfinished_refusal, finished_refusal, begun_with, begin_refusal, begin_of, take_refusal, take_length, take_of, taken_of};
ghost use Rattle.saves.specs.Rows.{SavesByRows};
ghost use Rattle.saves.specs.Parts.{Parts};

use bounded_vec::BoundedVec;
use filter_core::Refusal;
use library::Library;

// The bytes of its sheet that are left to take; the longest sheet has 834. A part is taken off the front, which moves what is behind it. So
// a save is these bytes and nothing else: there is no count of taken bytes that could exceed them.
#[derive(Clone, Copy, Debug, PartialEq, Eq)]
pub struct Save {
    pub left: BoundedVec<u8, 834>,
}

// ---- the refusals, where so many bytes are left to take

fn check_unfinished(left: usize) -> Result<(), Refusal>
    ensures { number_in result ≡ unfinished_refusal left }
{
    if 0 < left {
        Err(Refusal::Unfinished)
    } else {
        Ok(())
    }
}

fn check_finished(left: usize) -> Result<(), Refusal>
    ensures { number_in result ≡ finished_refusal left }
{
    if left < 1 {
        Err(Refusal::Finished)
    } else {
        Ok(())
    }
}

// ---- a save, and what is left of it

// A save of the library's sheet.
#[tactic(auto, unfolding(crate::specs::Save::zero_bytes))]
fn begun_with(library: &Library) -> Result<Save, Refusal>
    ensures refusal { number_in result ≡ write_number library.now (zero_bytes 834) }
    ensures save { IfOk result (λ save. save ≡ begun_with library.now) }
{
    let mut sheet = [0; 834];
    let length = library::write(library, &mut sheet)?;
    let mut left = BoundedVec::from(sheet);
    left.truncate(length);
    Ok(Save { left })
}

impl Save {
    // No save was begun.
    pub fn none() -> Save
        ensures { result ≡ no_save }
    {
        Save {
            left: BoundedVec::new(),
        }
    }

    // Begins a save of the library, unless one is unfinished or there is no library.
    pub fn begin(&mut self, library: &Library) -> Result<(), Refusal>
        ensures refusal { number_in result ≡ begin_refusal (length (left_of self.old)) library.now }
        ensures save { self.new ≡ begin_of self.old library.now }
    {
        check_unfinished(self.left.len())?;
        *self = begun_with(library)?;
        Ok(())
    }

    // Takes the next bytes, as many as the output has room for, and answers how many. Places behind them keep their contents.
    #[tactic(auto, using(crate::proofs::Parts::nothing_taken))]
    pub fn take(&mut self, output: &mut [u8]) -> Result<usize, Refusal>
        ensures refusal { number_in result ≡ take_refusal self.old }
        ensures length { IfOk result (λ length. length ≡ take_length self.old output.old) }
        ensures save { self.new ≡ take_of self.old output.old }
        ensures output_after { output.new ≡ taken_of self.old output.old }
    {
        check_finished(self.left.len())?;
        let n = lists::put(self.left.as_slice(), output, 0);
        self.left.remove_first(n);
        Ok(n)
    }
}

// ---- the theorems

// Each number is answered in its row's case, and in no other.
#[tactic(auto, using(crate::proofs::Rows::saves_by_rows))]
pub fn saves_by_rows()
    ensures { SavesByRows }
{}

// What is left of a save just begun is the sheet; a part, with what is left behind it, is what was left.
#[tactic(auto, using(crate::proofs::Parts::parts))]
pub fn parts_joined()
    ensures { Parts }
{}
