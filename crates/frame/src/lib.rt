// The frame: twelve heads, one library, the save that was begun last, and the rota. A call that is refused leaves the frame as it was.
#![tactic(auto)]

ghost use Rattle.std.specs.Prelude.{◌≡◌, IfOk};
ghost use Rattle.filter_core.specs.Refusal.{number_in};
ghost use Rattle.heads.specs.Act.{run, run_two, rest, mark, back, drop, count};
ghost use Rattle.rota.specs.Call.{tell, turn};
ghost use Rattle.rota.specs.Rota.{head_refusal};
ghost use Rattle.frame.specs.Call.{opening, writing, loading, at, beginning, taking, at_rota, saving_heads, restoring_heads};
ghost use Rattle.frame.specs.Calls.{head_at, fresh_frame, perform, plainly, acting, with_output, with_outputs, with_mark, with_count, with_written, with_telling, with_grant};
ghost use Rattle.frame.specs.Refused.{RefusedLeaves};
ghost use Rattle.frame.specs.Rows.{NumbersByRows};
ghost use Rattle.frame.specs.Demand.{Demand3};
ghost use Rattle.frame.specs.Counts.{Counts};
ghost use Rattle.frame.specs.Saves.{Saving};
ghost use Rattle.frame.specs.Feeding.{Feeding};
ghost use Rattle.frame.specs.Closing.{Closing};

use filter_core::Refusal;
use heads::{Head, Snapshot};
use library::Library;
use rota::{Grant, Rota, check_head};
use runs::RunForm;
use saves::Save;
use std::array;

#[derive(Clone, Copy)]
pub struct Frame {
    pub heads: [Head; 12],
    pub library: Library,
    pub save: Save,
    pub rota: Rota,
}

impl Frame {
    // Twelve empty heads, no library, no save begun, and a fresh rota.
    pub fn fresh() -> Frame
        ensures { result ≡ fresh_frame }
    {
        Frame {
            heads: array::from_fn(|_| Head::empty()),
            library: library::none(),
            save: Save::none(),
            rota: Rota::fresh(),
        }
    }

    // Takes a sheet as the library.
    #[tactic(auto, unfolding(crate::specs::Calls::perform, heads::specs::Head::turn))]
    pub fn open(&mut self, sheet: &[u8]) -> Result<(), Refusal>
        ensures { plainly result self.new ≡ perform self.old (opening sheet.now) }
    {
        self.library = library::read(sheet)?;
        Ok(())
    }

    // Puts the filter of an entry into a head, and its count to 0. The settings are copied; the head's marks stay.
    #[tactic(auto, unfolding(crate::specs::Calls::perform, heads::specs::Head::turn))]
    pub fn load(&mut self, head: usize, entry: usize) -> Result<(), Refusal>
        ensures { plainly result self.new ≡ perform self.old (loading head entry) }
    {
        check_head(head)?;
        if self.library.entries.len() <= entry {
            return Err(Refusal::Entry);
        }
        self.heads[head].now = Snapshot::loaded(library::entry_at(&self.library, entry));
        Ok(())
    }

    // Runs a form with one output. The head's count goes up by the shortest length, whichever samples the form filters.
    #[tactic(auto, unfolding(crate::specs::Calls::perform, heads::specs::Head::turn))]
    pub fn run(
        &mut self,
        head: usize,
        form: RunForm,
        input: &[f32],
        output: &mut [f32],
    ) -> Result<(), Refusal>
        ensures { with_output result self.new output.new ≡ perform self.old (at head (run form input.now output.old)) }
    {
        check_head(head)?;
        self.heads[head].now.run(form, input, output)
    }

    // Runs a form with two outputs, in which a sample counts once.
    #[tactic(auto, unfolding(crate::specs::Calls::perform, heads::specs::Head::turn))]
    pub fn run_two(
        &mut self,
        head: usize,
        form: RunForm,
        input: &[f32],
        first: &mut [f32],
        second: &mut [f32],
    ) -> Result<(), Refusal>
        ensures { with_outputs result self.new first.new second.new ≡ perform self.old (at head (run_two form input.now first.old second.old)) }
    {
        check_head(head)?;
        self.heads[head].now.run_two(form, input, first, second)
    }

    // Clears what a head's filter retains of past samples. Its count stays.
    #[tactic(auto, unfolding(crate::specs::Calls::perform, heads::specs::Head::turn))]
    pub fn rest(&mut self, head: usize) -> Result<(), Refusal>
        ensures { acting result self.new ≡ perform self.old (at head rest) }
    {
        check_head(head)?;
        self.heads[head].now.rest()
    }

    // Records a head, and answers the mark's number.
    #[tactic(auto, unfolding(crate::specs::Calls::perform, heads::specs::Head::turn))]
    pub fn mark(&mut self, head: usize) -> Result<usize, Refusal>
        ensures { with_mark result self.new ≡ perform self.old (at head mark) }
    {
        check_head(head)?;
        self.heads[head].mark()
    }

    // Restores mark m, keeps it, and drops those above.
    #[tactic(auto, unfolding(crate::specs::Calls::perform, heads::specs::Head::turn))]
    pub fn back(&mut self, head: usize, m: usize) -> Result<(), Refusal>
        ensures { acting result self.new ≡ perform self.old (at head (back m)) }
    {
        check_head(head)?;
        self.heads[head].back(m)
    }

    // Drops mark m and those above. What the head holds stays.
    #[tactic(auto, unfolding(crate::specs::Calls::perform, heads::specs::Head::turn))]
    pub fn drop(&mut self, head: usize, m: usize) -> Result<(), Refusal>
        ensures { acting result self.new ≡ perform self.old (at head (drop m)) }
    {
        check_head(head)?;
        self.heads[head].drop(m)
    }

    // How many samples a head has sewn since its load: 0 for an empty one.
    #[tactic(auto, unfolding(crate::specs::Calls::perform, heads::specs::Head::turn))]
    pub fn count(&self, head: usize) -> Result<u32, Refusal>
        ensures { with_count result self.now ≡ perform self.now (at head count) }
    {
        Ok(self.show(head)?.now.count)
    }

    // Writes the library as a sheet, and answers its length.
    #[tactic(auto, unfolding(crate::specs::Calls::perform, heads::specs::Head::turn))]
    pub fn write(&self, output: &mut [u8]) -> Result<usize, Refusal>
        ensures { with_written result self.now output.new ≡ perform self.now (writing output.old) }
    {
        library::write(&self.library, output)
    }

    // Begins a save of the library as it stands: whatever is opened until its last byte is taken, it goes on with this sheet.
    #[tactic(auto, unfolding(crate::specs::Calls::perform))]
    pub fn begin(&mut self) -> Result<(), Refusal>
        ensures { plainly result self.new ≡ perform self.old beginning }
    {
        self.save.begin(&self.library)
    }

    // Takes the next bytes of the save, as many as the output has room for, and answers how many. Places behind them keep their contents.
    // With its last byte the save ends.
    #[tactic(auto, unfolding(crate::specs::Calls::perform))]
    pub fn take(&mut self, output: &mut [u8]) -> Result<usize, Refusal>
        ensures { with_written result self.new output.new ≡ perform self.old (taking output.old) }
    {
        self.save.take(output)
    }

    // Has a head wait for so many samples, of which its turns will grant it at most 256 each.
    #[tactic(auto, unfolding(crate::specs::Calls::perform))]
    pub fn tell(&mut self, head: usize, samples: u16) -> Result<(), Refusal>
        ensures { with_telling result self.new ≡ perform self.old (at_rota (tell head samples)) }
    {
        self.rota.tell(head, samples)
    }

    // Grants samples to the next head that waits, or none where no head does. To run them is the caller's: a turn changes the rota alone.
    #[tactic(auto, unfolding(crate::specs::Calls::perform))]
    pub fn turn(&mut self) -> Option<Grant>
        ensures { with_grant result self.new ≡ perform self.old (at_rota turn) }
    {
        self.rota.turn()
    }

    // Writes the saved form of the heads with their marks and counts, and answers its length. Places behind it keep their contents.
    #[tactic(auto, unfolding(crate::specs::Calls::perform))]
    pub fn save_heads(&self, output: &mut [u8]) -> Result<usize, Refusal>
        ensures { with_written result self.now output.new ≡ perform self.now (saving_heads output.old) }
    {
        saved_heads::save(&self.heads, output)
    }

    // Replaces all twelve heads by those that were saved as these bytes. The library, the save that was begun and the rota stay.
    #[tactic(auto, unfolding(crate::specs::Calls::perform))]
    pub fn restore_heads(&mut self, bytes: &[u8]) -> Result<(), Refusal>
        ensures { plainly result self.new ≡ perform self.old (restoring_heads bytes.now) }
    {
        self.heads = saved_heads::restore(bytes)?;
        Ok(())
    }

    // A head as it stands.
    pub fn show(&self, head: usize) -> Result<&Head, Refusal>
        ensures refusal { number_in result ≡ head_refusal head }
        ensures head { IfOk result (λ shown. shown.now ≡ head_at self.now head) }
    {
        check_head(head)?;
        Ok(&self.heads[head])
    }
}

// Demand 1 of document 01: a call that is not accepted changes nothing.
#[tactic(auto, using(crate::proofs::Refused::refused_leaves))]
pub fn refused_leaves()
    ensures { RefusedLeaves }
{}

// Each number is answered in its row's case of the refusal table, and in no other.
#[tactic(auto, using(crate::proofs::Rows::numbers_by_rows))]
pub fn numbers_by_rows()
    ensures { NumbersByRows }
{}

// Demand 3 of document 01: under every list of calls the frame does what the calls' histories say.
#[tactic(auto, using(crate::proofs::Upholds::demand3))]
pub fn history()
    ensures { Demand3 }
{}

// Asking for a count changes nothing, and no call takes one above what 32 bits hold.
#[tactic(auto, using(crate::proofs::Counts::counts))]
pub fn counts_fit()
    ensures { Counts }
{}

// A save hands out the sheet as it was when the save began, and leaves heads, marks and library as they are.
#[tactic(auto, using(crate::proofs::Saves::save_goes_on))]
pub fn opening_while_saving()
    ensures { Saving }
{}

// The rota is fair to every head, whatever is called between its own calls, and leaves heads, marks, library and save as they are.
#[tactic(auto, using(crate::proofs::Feeding::feeding))]
pub fn one_worker_feeds_all()
    ensures { Feeding }
{}

// A frame that closes and opens again goes on from the same stitch: what is saved of it is restored exactly, and demand 3 holds from there.
#[tactic(auto, using(crate::proofs::Closing::closing))]
pub fn closing_time()
    ensures { Closing }
{}
