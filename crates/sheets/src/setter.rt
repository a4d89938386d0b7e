// Which setter an entry's kind byte names, and with which approximation.

ghost use Rattle.std.specs.Prelude.{◌≡◌, ℕ, suc, ◌<◌, ◌≤◌, cond, ltb, length, get_or, slice_get, None, Some, IsSome};
ghost use Rattle.std.specs.Option.{option_and_then};
ghost use Rattle.filter_core.specs.declared.FrequencyApproximation.TheVariants.{Series};
ghost use Rattle.sheets.specs.Edition.{approximations_in};
ghost use Rattle.sheets.specs.Kind.{setter_for, setter_in, setter_of};
ghost use Rattle.sheets.specs.declared.edition.Edition.TheVariants.{Two};

use crate::edition::Edition;
use filter_core::FrequencyApproximation;

#[derive(Clone, Copy, Debug, PartialEq, Eq)]
pub enum Setter {
    DcBlocker,
    OnePole(FrequencyApproximation),
    SvfFrequency(FrequencyApproximation),
    SvfCoefficients,
    NaiveSvf(FrequencyApproximation),
    ModifiedSvf,
    CrossoverSvf,
}

// ---- the limits of a kind byte's high half (02 d); that they are below 5 is for the choice behind them

// The last approximation that an edition has.
fn last_approximation(edition: Edition) -> u8
    ensures edition_len { length (approximations_in edition) ≡ suc result }
    ensures upper_bound { result < 5 }
{
    match edition {
        Edition::One => 3,
        Edition::Two => 4,
    }
}

// The last that a kind takes: 2, 3 and 5 take all that the edition has, the others 0 alone. Past it there is no setter, up to it the kind's.
fn last_for_kind(edition: Edition, kind: u8) -> u8
    requires { (0 < kind) × (kind < 8) }
    ensures by_number { (p : ℕ) → option_and_then (setter_for kind) (slice_get (approximations_in edition) p)
        ≡ cond (ltb result p) None (setter_for kind (get_or (approximations_in edition) p Series)) }
    ensures taken { (p : ℕ) → p ≤ result → IsSome (setter_for kind (get_or (approximations_in Two) p Series)) }
    ensures upper_bound { result < 5 }
{
    // A test has a name here, by which its proof goes, so that a wrong limit is refused by a fact.
    let is_first = kind < 2;
    if is_first {
        return 0;
    }
    let is_fourth = kind == 4;
    if is_fourth {
        return 0;
    }
    let is_past_fifth = 5 < kind;
    if is_past_fifth {
        return 0;
    }
    last_approximation(edition)
}

// ---- the choice of what the limits let through: the last arm is the last case

fn approximation_of(n: u8) -> FrequencyApproximation
    requires { n < 5 }
    ensures { result ≡ get_or (approximations_in Two) n Series }
{
    match n {
        0 => FrequencyApproximation::Exact,
        1 => FrequencyApproximation::Accurate,
        2 => FrequencyApproximation::Fast,
        3 => FrequencyApproximation::Dirty,
        _ => FrequencyApproximation::Series,
    }
}

fn setter_for(kind: u8, approximation: FrequencyApproximation) -> Setter
    requires { (0 < kind) × (kind < 8) }
    ensures { IsSome (setter_for kind approximation) → Some result ≡ setter_for kind approximation }
{
    match kind {
        1 => Setter::DcBlocker,
        2 => Setter::OnePole(approximation),
        3 => Setter::SvfFrequency(approximation),
        4 => Setter::SvfCoefficients,
        5 => Setter::NaiveSvf(approximation),
        6 => Setter::ModifiedSvf,
        _ => Setter::CrossoverSvf,
    }
}

// ---- a kind byte: its low half is the kind, its high half the approximation

// None where it names no setter.
pub fn setter_in(edition: Edition, kind: u8) -> Option<Setter>
    ensures { result ≡ setter_in edition kind }
{
    let low = kind % 16;
    let high = kind / 16;
    if low < 1 {
        return None;
    }
    if 7 < low {
        return None;
    }
    if last_for_kind(edition, low) < high {
        return None;
    }
    Some(setter_for(low, approximation_of(high)))
}

// As a load asks for it: by edition 2, where a byte of edition 1 means the same.
pub fn setter_of(kind: u8) -> Option<Setter>
    ensures { result ≡ setter_of kind }
{
    setter_in(Edition::Two, kind)
}
