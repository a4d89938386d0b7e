// The form of a run: a name and what goes with it, with colons between.

ghost use Rattle.std.specs.Prelude.{◌≡◌};
ghost use Rattle.form_text.specs.Field.{fields_left};
ghost use Rattle.form_text.specs.Form.{mode_of, value_of, plain_form, gain_form, stride_form, multimode_form, decimate_form, gains_form, pair_form, split_form, form_for, form_of};

use crate::field::Fields;
use digits::number_of;
use filter_core::FilterMode;
use runs::RunForm;

// A match over the text of a line, which names the mode.
fn mode_of(s: &[u8]) -> Option<FilterMode>
    ensures { result ≡ mode_of s.now }
{
    match s {
        b"low" => Some(FilterMode::LowPass),
        b"band" => Some(FilterMode::BandPass),
        b"normalized" => Some(FilterMode::BandPassNormalized),
        b"high" => Some(FilterMode::HighPass),
        _ => None,
    }
}

// A WORD, eight hexadecimal digits, as binary32. Every NaN pattern is the one NaN.
fn value_of(s: &[u8]) -> Option<f32>
    ensures { result ≡ value_of s.now }
{
    if s.len() == 8 && digits::all_hex(s) {
        return Some(digits::sample(s, 0));
    }
    None
}

// A function for each form, of two lines at most: one for all would be told how each of its values is read, and be no shorter.

fn plain_form(fields: Fields<'_>) -> Option<RunForm>
    ensures { result ≡ plain_form (fields_left fields.entry) }
{
    Some(RunForm::Plain(mode_of(fields.one()?)?))
}

fn gain_form(fields: Fields<'_>) -> Option<RunForm>
    ensures { result ≡ gain_form (fields_left fields.entry) }
{
    let (mode, gain) = fields.two()?;
    Some(RunForm::Gain(mode_of(mode)?, value_of(gain)?))
}

fn stride_form(fields: Fields<'_>) -> Option<RunForm>
    ensures { result ≡ stride_form (fields_left fields.entry) }
{
    let (mode, step) = fields.two()?;
    Some(RunForm::Stride(mode_of(mode)?, number_of(step)?))
}

fn multimode_form(fields: Fields<'_>) -> Option<RunForm>
    ensures { result ≡ multimode_form (fields_left fields.entry) }
{
    Some(RunForm::Multimode(value_of(fields.one()?)?))
}

fn decimate_form(fields: Fields<'_>) -> Option<RunForm>
    ensures { result ≡ decimate_form (fields_left fields.entry) }
{
    let (mode, step) = fields.two()?;
    Some(RunForm::Decimate(mode_of(mode)?, number_of(step)?))
}

fn gains_form(fields: Fields<'_>) -> Option<RunForm>
    ensures { result ≡ gains_form (fields_left fields.entry) }
{
    let (mode, first, second) = fields.three()?;
    Some(RunForm::Gains(mode_of(mode)?, value_of(first)?, value_of(second)?))
}

fn pair_form(fields: Fields<'_>) -> Option<RunForm>
    ensures { result ≡ pair_form (fields_left fields.entry) }
{
    let (first, second) = fields.two()?;
    Some(RunForm::Pair(mode_of(first)?, mode_of(second)?))
}

fn split_form(fields: Fields<'_>) -> Option<RunForm>
    ensures { result ≡ split_form (fields_left fields.entry) }
{
    fields.end()?;
    Some(RunForm::Split)
}

// A match over the text of a line, whose name says what its fields are.
fn form_for(name: &[u8], fields: Fields<'_>) -> Option<RunForm>
    ensures { result ≡ form_for name.now (fields_left fields.entry) }
{
    match name {
        b"plain" => plain_form(fields),
        b"gain" => gain_form(fields),
        b"stride" => stride_form(fields),
        b"multimode" => multimode_form(fields),
        b"decimate" => decimate_form(fields),
        b"gains" => gains_form(fields),
        b"pair" => pair_form(fields),
        b"split" => split_form(fields),
        _ => None,
    }
}

pub fn form_of(s: &[u8]) -> Option<RunForm>
    ensures { result ≡ form_of s.now }
{
    let mut fields = Fields::of(s, b':');
    let name = fields.next()?;
    form_for(name, fields)
}
