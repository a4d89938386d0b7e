// A head: empty or with one filter and a count of the samples sewn since its load, and up to four marks to go back to.
// A call that is refused leaves the head as it was.
#![tactic(auto)]

mod count;

ghost use Rattle.std.specs.Prelude.{◌≡◌};
ghost use Rattle.heads.specs.Act.{mark, back, drop};
ghost use Rattle.heads.specs.Snapshot.{loaded_with, run_sewn, run_two_sewn, rest_sewn, sewn_plainly, sewn_with, sewn_with_two};
ghost use Rattle.heads.specs.Head.{empty_head, turn, turned_plainly, turned_with_mark};
ghost use Rattle.heads.specs.Follows.{HeadFollows};
ghost use Rattle.heads.specs.Counts.{CountsAreSums};
ghost use Rattle.heads.specs.Rows.{HeadByRows};
ghost use Rattle.heads.specs.Rest.{RestIsLoad};
ghost use Rattle.heads.specs.Valid.{HeadsValid};

use any_filter::Filter;
use bounded_vec::{Blank, BoundedVec};
use count::raised;
use filter_core::Refusal;
use runs::RunForm;
use sheets::Entry;

// What a mark keeps of a head, and what the head itself holds. The count is that of the samples sewn since the load, on from the
// restored count where a filter was restored (02 k), and 0 while empty.
#[derive(Clone, Copy, Default)]
pub struct Snapshot {
    pub filter: Option<Filter>,
    pub count: u32,
}

// A place without a mark has what an empty head holds.
impl Blank for Snapshot {
    ghost use Rattle.heads.specs.Snapshot.{empty_snapshot};

    ghost blank = { empty_snapshot };

    fn blank() -> Snapshot {
        Snapshot::default()
    }
}

#[derive(Clone, Copy, Default)]
pub struct Head {
    pub now: Snapshot,
    pub marks: BoundedVec<Snapshot, 4>,
}

// The calls that change what a head holds and leave its marks.
impl Snapshot {
    // The filter of an entry, and a count of 0. The settings are copied, so that a library opened later alters nothing here.
    pub fn loaded(entry: Entry) -> Snapshot
        ensures { result ≡ loaded_with entry }
    {
        Snapshot {
            filter: Some(loads::filter_of(entry)),
            count: 0,
        }
    }

    // Runs a form with one output. All samples within the shortest length count.
    #[tactic(auto, unfolding(crate::specs::Snapshot::run_sewn))]
    pub fn run(&mut self, form: RunForm, input: &[f32], output: &mut [f32]) -> Result<(), Refusal>
        ensures { sewn_with result self.new output.new ≡ run_sewn self.old form input.now output.old }
    {
        let Some(filter) = &mut self.filter else {
            return Err(Refusal::Bare);
        };
        runs::check_run(filter, form)?;
        let count = raised(self.count, input.len().min(output.len()))?;
        runs::run_or_leave(filter, form, input, output);
        self.count = count;
        Ok(())
    }

    // Runs a form with two outputs. A sample counts once.
    #[tactic(auto, unfolding(crate::specs::Snapshot::run_two_sewn))]
    pub fn run_two(
        &mut self,
        form: RunForm,
        input: &[f32],
        first: &mut [f32],
        second: &mut [f32],
    ) -> Result<(), Refusal>
        ensures { sewn_with_two result self.new first.new second.new ≡ run_two_sewn self.old form input.now first.old second.old }
    {
        let Some(filter) = &mut self.filter else {
            return Err(Refusal::Bare);
        };
        runs::check_run_two(filter, form)?;
        let count = raised(self.count, input.len().min(first.len().min(second.len())))?;
        runs::run_two_or_leave(filter, form, input, first, second);
        self.count = count;
        Ok(())
    }

    // Clears what the filter retains of past samples. The count stays.
    #[tactic(auto, unfolding(crate::specs::Snapshot::rest_sewn))]
    pub fn rest(&mut self) -> Result<(), Refusal>
        ensures { sewn_plainly result self.new ≡ rest_sewn self.old }
    {
        let Some(filter) = &mut self.filter else {
            return Err(Refusal::Bare);
        };
        filter.rest();
        Ok(())
    }
}

impl Head {
    pub fn empty() -> Head
        ensures { result ≡ empty_head }
    {
        Head::default()
    }

    // Records what the head holds, and answers the mark's number.
    #[tactic(auto, unfolding(crate::specs::Head::turn))]
    pub fn mark(&mut self) -> Result<usize, Refusal>
        ensures { turned_with_mark result self.new ≡ turn self.old mark }
    {
        let Some(_) = self.now.filter else {
            return Err(Refusal::Bare);
        };
        let m = self.marks.len();
        match self.marks.try_push(self.now) {
            Ok(()) => Ok(m),
            Err(_) => Err(Refusal::Full),
        }
    }

    // Restores mark m, keeps it, and drops those above.
    #[tactic(auto, unfolding(crate::specs::Head::turn))]
    pub fn back(&mut self, m: usize) -> Result<(), Refusal>
        ensures { turned_plainly result self.new ≡ turn self.old (back m) }
    {
        if self.marks.len() <= m {
            return Err(Refusal::Mark);
        }
        self.now = self.marks[m];
        self.marks.truncate(m + 1);
        Ok(())
    }

    // Drops mark m and those above. What the head holds stays.
    #[tactic(auto, unfolding(crate::specs::Head::turn))]
    pub fn drop(&mut self, m: usize) -> Result<(), Refusal>
        ensures { turned_plainly result self.new ≡ turn self.old (drop m) }
    {
        if self.marks.len() <= m {
            return Err(Refusal::Mark);
        }
        self.marks.truncate(m);
        Ok(())
    }
}

// Under every call a head is the picture of its history.
#[tactic(auto, using(crate::proofs::Follows::head_follows))]
pub fn head_follows()
    ensures { HeadFollows }
{}

// Each number is answered in its row's case of the refusal table, and in no other.
pub fn head_by_rows()
    ensures { HeadByRows }
{}

// Every history's count is the sum of its samples since the last load, or of a restored filter's count and the samples since (02 k).
#[tactic(auto, using(crate::proofs::Counts::count_is))]
pub fn counts_are_sums()
    ensures { CountsAreSums }
{}

// From a rest on, a head's filter is what it would be if the head had just been loaded, or restored at rest (02 k).
#[tactic(auto, using(crate::proofs::Rest::rest_is_load))]
pub fn rest_is_load()
    ensures { RestIsLoad }
{}

// What every head keeps that calls lead to, and that one that keeps it is the picture of the history that it opens when it is restored.
#[tactic(auto, using(crate::proofs::Valid::heads_valid))]
pub fn heads_valid()
    ensures { HeadsValid }
{}
