// What the six filters share: their two enums, the refusals, the loops of their buffer forms, the choice of an output by mode, and the
// evaluator of a power series.
#![tactic(auto)]

mod form;
mod number;
mod refusal;

ghost use Rattle.std.specs.Prelude.{◌≡◌, reverse};
ghost use Rattle.std.specs.List.{fold};
ghost use Rattle.filter_core.specs.Arithmetic.{◌+ᶠ◌, ◌*ᶠ◌};
ghost use Rattle.filter_core.specs.Clip.{clip_at};
ghost use Rattle.filter_core.specs.Mode.{by_mode};
ghost use Rattle.filter_core.specs.Rows.{RefusalsByRows};
ghost use Rattle.filter_core.specs.Series.{horner};

pub use form::{Form, PairForm, filter_each, filter_each_held, filter_pair, filter_pair_held};
pub use number::UnknownNumber;
pub use refusal::{EXACT_LOWEST, Refusal, check_frequency, check_step, number_in};

#[derive(Clone, Copy, Debug, PartialEq, Eq)]
pub enum FilterMode {
    LowPass,
    BandPass,
    BandPassNormalized,
    HighPass,
}

// The source's four, and approximation 4 of request a in document 02.
#[derive(Clone, Copy, Debug, PartialEq, Eq)]
pub enum FrequencyApproximation {
    Exact,
    Accurate,
    Fast,
    Dirty,
    Series,
}

// The tap that a mode answers, of four that are computed already.
pub fn by_mode(mode: FilterMode, low: f32, band: f32, normalized: f32, high: f32) -> f32
    ensures { result ≡ by_mode mode low band normalized high }
{
    match mode {
        FilterMode::LowPass => low,
        FilterMode::BandPass => band,
        FilterMode::BandPassNormalized => normalized,
        FilterMode::HighPass => high,
    }
}

// The sum of the coefficients before the last, by Horner's rule from the row's end.
fn folded(y: f32, before: &[f32], last: f32) -> f32
    ensures { result ≡ fold (λ sum c. c +ᶠ y *ᶠ sum) last (reverse before.now) }
{
    before.iter().rev().fold(last, |sum, c| c + y * sum)
}

// row[0] + y * (row[1] + y * (row[2] + ..)), from the row's end; 0 for an empty row.
pub fn series(y: f32, row: &[f32]) -> f32
    ensures { result ≡ horner y row.now }
{
    match row.split_last() {
        Some((last, before)) => folded(y, before, *last),
        None => 0.0,
    }
}

// A frequency that is not below the limit becomes the limit, and so does a NaN.
pub fn clip_at(limit: f32, f: f32) -> f32
    ensures { result ≡ clip_at limit f }
{
    if f < limit { f } else { limit }
}

// 10 and 11 are answered each in its row's case of the refusal table, and in no other.
pub fn refusals_by_rows()
    ensures { RefusalsByRows }
{}
