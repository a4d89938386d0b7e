// Runs with one output. Each type takes the forms that it has, and refuses any other. The form, the input and the output are 01's run.

ghost use Rattle.std.specs.Prelude.{◌≡◌};
ghost use Rattle.filter_core.specs.Buffer.{within};
ghost use Rattle.filter_core.specs.Refusal.{number_in};
ghost use Rattle.any_filter.specs.Cases.{type_of};
ghost use Rattle.any_filter.specs.declared.FilterType.TheVariants as type;
ghost use Rattle.runs.specs.Form.{run_refusal};
ghost use Rattle.runs.specs.Run.{only_plain, throughout, svf_form, naive_form, RanBy, Ran};

use crate::RunForm;
use any_filter::{Filter, Passes};
use crossover_svf::CrossoverSvf;
use filter_core::{FilterMode, Form, Refusal, filter_each_held};
use naive_svf::NaiveSvf;
use svf::Svf;

// A filter that has the plain form alone, by its mode: each is refused what a `OnePole` is.
fn run_plain<S: Copy>(
    f: &mut S,
    form: RunForm,
    input: &[f32],
    output: &mut [f32],
) -> Result<(), Refusal>
where
    FilterMode: Form<S>,
    ensures refusal { number_in result ≡ run_refusal type.OnePole form }
    ensures ran { RanBy (run_refusal type.OnePole form) (only_plain (λ mode. throughout (⟦<FilterMode as Form<S>>⟧.next mode) (⟦<FilterMode as Form<S>>⟧.out mode)) form) f.old (within input.now output.old) output.old f.new output.new }
{
    let RunForm::Plain(mode) = form else {
        return Err(Refusal::Form);
    };
    filter_each_held(&mode, f, input, output);
    Ok(())
}

// By the form's own cases, each with what its call takes.
fn run_svf(f: &mut Svf, form: RunForm, input: &[f32], output: &mut [f32]) -> Result<(), Refusal>
    ensures refusal { number_in result ≡ run_refusal type.Svf form }
    ensures ran { RanBy (run_refusal type.Svf form) (svf_form form) f.old (within input.now output.old) output.old f.new output.new }
{
    match form {
        RunForm::Plain(mode) => f.process_buffer(input, output, mode),
        RunForm::Gain(mode, gain) => f.process_add_buffer(input, output, gain, mode),
        RunForm::Stride(mode, step) => f.process_stride_buffer(input, output, step, mode)?,
        RunForm::Multimode(value) => f.process_multimode_buffer(input, output, value),
        _ => return Err(Refusal::Form),
    }
    Ok(())
}

// By the form's own cases, as above.
fn run_naive(
    f: &mut NaiveSvf,
    form: RunForm,
    input: &[f32],
    output: &mut [f32],
) -> Result<(), Refusal>
    ensures refusal { number_in result ≡ run_refusal type.NaiveSvf form }
    ensures ran { RanBy (run_refusal type.NaiveSvf form) (naive_form form) f.old (within input.now output.old) output.old f.new output.new }
{
    match form {
        RunForm::Plain(mode) => f.process_buffer(input, output, mode),
        RunForm::Decimate(mode, step) => f.process_decimate(input, output, step, mode)?,
        _ => return Err(Refusal::Form),
    }
    Ok(())
}

// Runs the form, or refuses it and changes nothing. By the filter's own cases: a mark keeps a filter as a value, and a dyn filter is none.
pub fn run(
    filter: &mut Filter,
    form: RunForm,
    input: &[f32],
    output: &mut [f32],
) -> Result<(), Refusal>
    ensures refusal { number_in result ≡ run_refusal (type_of filter.old) form }
    ensures ran { Ran filter.old form (within input.now output.old) output.old filter.new output.new }
{
    match filter {
        Filter::DcBlocker(f) => run_plain(f, form, input, output),
        Filter::OnePole(f) => run_plain(f, form, input, output),
        Filter::Svf(f) => run_svf(f, form, input, output),
        Filter::NaiveSvf(f) => run_naive(f, form, input, output),
        Filter::ModifiedSvf(f) => run_plain(f, form, input, output),
        Filter::CrossoverSvf(passes) => {
            let mut f = CrossoverSvf::from(*passes);
            let ran = run_plain(&mut f, form, input, output);
            *passes = Passes::from(f);
            ran
        }
    }
}

// The same, where a refusal is not told: it leaves everything, and this cannot fail.
pub fn run_or_leave(filter: &mut Filter, form: RunForm, input: &[f32], output: &mut [f32])
    ensures { Ran filter.old form (within input.now output.old) output.old filter.new output.new }
{
    let _ = run(filter, form, input, output);
}
