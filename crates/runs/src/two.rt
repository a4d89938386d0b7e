// Runs with two outputs.

ghost use Rattle.std.specs.Prelude.{◌≡◌};
ghost use Rattle.filter_core.specs.Buffer.{within};
ghost use Rattle.filter_core.specs.Refusal.{number_in};
ghost use Rattle.any_filter.specs.Cases.{type_of};
ghost use Rattle.any_filter.specs.declared.FilterType.TheVariants as type;
ghost use Rattle.runs.specs.Form.{run_two_refusal};
ghost use Rattle.runs.specs.Run.{svf_form, naive_form, RanTwoBy, RanTwo};

use crate::RunForm;
use any_filter::Filter;
use filter_core::{Refusal, filter_pair_held};
use naive_svf::NaiveSvf;
use svf::{Pair, Svf};

fn run_two_svf(
    f: &mut Svf,
    form: RunForm,
    input: &[f32],
    first: &mut [f32],
    second: &mut [f32],
) -> Result<(), Refusal>
    ensures refusal { number_in result ≡ run_two_refusal type.Svf form }
    ensures ran { RanTwoBy (run_two_refusal type.Svf form) (svf_form form) f.old (within (within input.now first.old) second.old)
        first.old second.old f.new first.new second.new }
{
    match form {
        RunForm::Gains(mode, a, b) => {
            f.process_add_dual_buffer(input, first, second, a, b, mode);
            Ok(())
        }
        RunForm::Pair(a, b) => {
            let pair = Pair {
                first: a,
                second: b,
            };
            filter_pair_held(&pair, f, input, first, second);
            Ok(())
        }
        _ => Err(Refusal::Form),
    }
}

fn run_two_naive(
    f: &mut NaiveSvf,
    form: RunForm,
    input: &[f32],
    first: &mut [f32],
    second: &mut [f32],
) -> Result<(), Refusal>
    ensures refusal { number_in result ≡ run_two_refusal type.NaiveSvf form }
    ensures ran { RanTwoBy (run_two_refusal type.NaiveSvf form) (naive_form form) f.old (within (within input.now first.old) second.old)
        first.old second.old f.new first.new second.new }
{
    let RunForm::Split = form else {
        return Err(Refusal::Form);
    };
    f.split(input, first, second);
    Ok(())
}

// Runs the form, or refuses it and changes nothing. By the filter's own cases, as with one output.
pub fn run_two(
    filter: &mut Filter,
    form: RunForm,
    input: &[f32],
    first: &mut [f32],
    second: &mut [f32],
) -> Result<(), Refusal>
    ensures refusal { number_in result ≡ run_two_refusal (type_of filter.old) form }
    ensures ran { RanTwo filter.old form (within (within input.now first.old) second.old)
        first.old second.old filter.new first.new second.new }
{
    match filter {
        Filter::Svf(f) => run_two_svf(f, form, input, first, second),
        Filter::NaiveSvf(f) => run_two_naive(f, form, input, first, second),
        _ => Err(Refusal::Form),
    }
}

// As `run_or_leave`.
pub fn run_two_or_leave(
    filter: &mut Filter,
    form: RunForm,
    input: &[f32],
    first: &mut [f32],
    second: &mut [f32],
)
    ensures { RanTwo filter.old form (within (within input.now first.old) second.old)
        first.old second.old filter.new first.new second.new }
{
    let _ = run_two(filter, form, input, first, second);
}
