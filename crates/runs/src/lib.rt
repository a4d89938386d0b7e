// What a head does with its filter: the forms of a run, what a run is refused for, and the runs.
// A run that is refused leaves filter and outputs as they were; a caller may ask for the refusal first.
#![tactic(auto)]

mod form;
mod one;
mod two;

ghost use Rattle.runs.specs.Rows.{RunByRows};
ghost use Rattle.runs.specs.Kept.{RunsKeepCoefficients};

pub use form::{RunForm, check_run, check_run_two};
pub use one::{run, run_or_leave};
pub use two::{run_two, run_two_or_leave};

// 9 and 10 are answered each in its row's case of the refusal table, and in no other.
#[tactic(auto, using(crate::proofs::Rows::by_rows))]
pub fn run_by_rows()
    ensures { RunByRows }
{}

// Whatever its form and its samples, a run leaves the coefficients as they were.
#[tactic(auto, using(crate::proofs::Kept::runs_keep))]
pub fn runs_keep_coefficients()
    ensures { RunsKeepCoefficients }
{}
