// OnePole: g, gi, state.

ghost use Rattle.std.specs.Prelude.{◌≡◌};
ghost use Rattle.filter_core.specs.Refusal.{frequency_refusal};
ghost use Rattle.one_pole.specs.Tangent.{tan_of};
ghost use Rattle.one_pole.specs.OnePole.{one_pole_new, one_pole_init, one_pole_reset, one_pole_set_f, one_pole_next, one_pole_out};
ghost use Rattle.filter_core.specs.Rows.{◌then◌};
ghost use Rattle.filter_core.specs.Numbers.{last_mode, last_approximation, mode_of, approximation_of};
ghost use Rattle.filter_fields.specs.Numbers.{unknown_refusal};
ghost use Rattle.one_pole.specs.Fields.{one_pole_from, one_pole_fields};
ghost use Rattle.filter_exports.specs.Calls.{Gives, Sets, Answers};

use crate::{UNKNOWN, change, filter_sample, set};
use filter_core::FrequencyApproximation;
use one_pole::OnePole;

pub fn one_pole_new(state: &mut [f32; 3])
    ensures { state.new ≡ one_pole_fields one_pole_new }
{
    *state = OnePole::new().into();
}

pub fn one_pole_init(state: &mut [f32; 3])
    ensures { state.new ≡ one_pole_fields (one_pole_init (one_pole_from state.old)) }
{
    change(state, |filter: &mut OnePole| filter.init());
}

pub fn one_pole_reset(state: &mut [f32; 3])
    ensures { state.new ≡ one_pole_fields (one_pole_reset (one_pole_from state.old)) }
{
    change(state, |filter: &mut OnePole| filter.reset());
}

// Refused with UNKNOWN, then with 11 where Exact gets an f below -0.497.
pub fn one_pole_tan(f: f32, approximation: u32, value: &mut f32) -> u8
    ensures { Gives (unknown_refusal last_approximation approximation then frequency_refusal f (approximation_of approximation))
        value.old (tan_of f (approximation_of approximation)) result value.new }
{
    let Ok(approximation) = FrequencyApproximation::try_from(approximation) else {
        return UNKNOWN;
    };
    match OnePole::tan(f, approximation) {
        Ok(tangent) => {
            *value = tangent;
            0
        }
        Err(refusal) => refusal.into(),
    }
}

// Refused as one_pole_tan is.
pub fn one_pole_set_f(state: &mut [f32; 3], f: f32, approximation: u32) -> u8
    ensures { Sets (unknown_refusal last_approximation approximation then frequency_refusal f (approximation_of approximation))
        state.old (one_pole_fields (one_pole_set_f (one_pole_from state.old) f (approximation_of approximation))) result state.new }
{
    set(
        state,
        approximation,
        |filter: &mut OnePole, approximation| filter.set_f(f, approximation),
    )
}

// Refused with UNKNOWN.
pub fn one_pole_process(state: &mut [f32; 3], in_: f32, mode: u32, out: &mut f32) -> u8
    ensures { Answers (unknown_refusal last_mode mode) state.old (one_pole_fields (one_pole_next (one_pole_from state.old) in_))
        out.old (one_pole_out (mode_of mode) (one_pole_from state.old) in_) result state.new out.new }
{
    filter_sample(
        state,
        mode,
        out,
        |filter: &mut OnePole, mode| filter.process(in_, mode),
    )
}
