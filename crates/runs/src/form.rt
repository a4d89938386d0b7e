// The forms of a run, and which filter has which.

ghost use Rattle.std.specs.Prelude.{◌≡◌};
ghost use Rattle.filter_core.specs.Refusal.{number_in};
ghost use Rattle.any_filter.specs.Cases.{type_of};
ghost use Rattle.runs.specs.Form.{has_form, has_form_two, form_refusal, refusal_if, run_refusal, run_two_refusal};

use any_filter::{Filter, FilterType};
use filter_core::{FilterMode, Refusal};

// The last three have two outputs.
#[derive(Clone, Copy)]
pub enum RunForm {
    Plain(FilterMode),
    Gain(FilterMode, f32),
    Stride(FilterMode, usize),
    Multimode(f32),
    Decimate(FilterMode, usize),
    Gains(FilterMode, f32, f32),
    Pair(FilterMode, FilterMode),
    Split,
}

impl RunForm {
    // Whether a filter of the type has the form, in a run with one output.
    fn is_had_by(self, filter: FilterType) -> bool
        ensures { result ≡ has_form filter self }
    {
        match self {
            RunForm::Plain(_) => true,
            RunForm::Gain(_, _) | RunForm::Stride(_, _) | RunForm::Multimode(_) => {
                filter == FilterType::Svf
            }
            RunForm::Decimate(_, _) => filter == FilterType::NaiveSvf,
            RunForm::Gains(_, _, _) | RunForm::Pair(_, _) | RunForm::Split => false,
        }
    }

    // The same with two outputs.
    fn is_had_in_two_by(self, filter: FilterType) -> bool
        ensures { result ≡ has_form_two filter self }
    {
        match self {
            RunForm::Gains(_, _, _) | RunForm::Pair(_, _) => filter == FilterType::Svf,
            RunForm::Split => filter == FilterType::NaiveSvf,
            _ => false,
        }
    }

    fn check_step(self) -> Result<(), Refusal>
        ensures { number_in result ≡ form_refusal self }
    {
        match self {
            RunForm::Stride(_, step) | RunForm::Decimate(_, step) => filter_core::check_step(step),
            _ => Ok(()),
        }
    }

    fn check_if(self, has: bool) -> Result<(), Refusal>
        ensures { number_in result ≡ refusal_if has self }
    {
        if has {
            self.check_step()
        } else {
            Err(Refusal::Form)
        }
    }
}

// What a run with one output is refused for: that the filter does not have the form, then a step of 0.
pub fn check_run(filter: &Filter, form: RunForm) -> Result<(), Refusal>
    ensures { number_in result ≡ run_refusal (type_of filter.now) form }
{
    form.check_if(form.is_had_by(filter.filter_type()))
}

// The same with two outputs.
pub fn check_run_two(filter: &Filter, form: RunForm) -> Result<(), Refusal>
    ensures { number_in result ≡ run_two_refusal (type_of filter.now) form }
{
    form.check_if(form.is_had_in_two_by(filter.filter_type()))
}
