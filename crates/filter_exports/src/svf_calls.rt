// Svf: g, r, h, state_1, state_2.

ghost use Rattle.std.specs.Prelude.{◌≡◌};
ghost use Rattle.filter_core.specs.Buffer.{within, each, puts, each_due, puts_due};
ghost use Rattle.filter_core.specs.Refusal.{frequency_refusal, step_refusal};
ghost use Rattle.svf.specs.Svf.{svf_new, svf_init, svf_reset, svf_set, svf_set_g_r_h, svf_set_g_r, svf_set_g_q, svf_set_f_q};
ghost use Rattle.svf.specs.Svf.{svf_next, svf_out, svf_gained, svf_multimode};
ghost use Rattle.filter_core.specs.Rows.{◌then◌};
ghost use Rattle.filter_core.specs.Numbers.{last_mode, last_approximation, mode_of, approximation_of};
ghost use Rattle.filter_fields.specs.Numbers.{unknown_refusal};
ghost use Rattle.svf.specs.Fields.{svf_from, svf_fields};
ghost use Rattle.filter_exports.specs.Calls.{Sets, Answers, Runs, Filters};

use crate::{UNKNOWN, change, filter_sample, set};
use filter_core::FilterMode;
use svf::Svf;

pub fn svf_new(state: &mut [f32; 5])
    ensures { state.new ≡ svf_fields svf_new }
{
    *state = Svf::new().into();
}

pub fn svf_init(state: &mut [f32; 5])
    ensures { state.new ≡ svf_fields (svf_init (svf_from state.old)) }
{
    change(state, |filter: &mut Svf| filter.init());
}

pub fn svf_reset(state: &mut [f32; 5])
    ensures { state.new ≡ svf_fields (svf_reset (svf_from state.old)) }
{
    change(state, |filter: &mut Svf| filter.reset());
}

pub fn svf_set(state: &mut [f32; 5], other: &[f32; 5])
    ensures { state.new ≡ svf_fields (svf_set (svf_from state.old) (svf_from other.now)) }
{
    change(state, |filter: &mut Svf| filter.set(&Svf::from(*other)));
}

pub fn svf_set_g_r_h(state: &mut [f32; 5], g: f32, r: f32, h: f32)
    ensures { state.new ≡ svf_fields (svf_set_g_r_h (svf_from state.old) g r h) }
{
    change(state, |filter: &mut Svf| filter.set_g_r_h(g, r, h));
}

pub fn svf_set_g_r(state: &mut [f32; 5], g: f32, r: f32)
    ensures { state.new ≡ svf_fields (svf_set_g_r (svf_from state.old) g r) }
{
    change(state, |filter: &mut Svf| filter.set_g_r(g, r));
}

pub fn svf_set_g_q(state: &mut [f32; 5], g: f32, resonance: f32)
    ensures { state.new ≡ svf_fields (svf_set_g_q (svf_from state.old) g resonance) }
{
    change(state, |filter: &mut Svf| filter.set_g_q(g, resonance));
}

// Refused with UNKNOWN, then with 11 where Exact gets an f below -0.497.
pub fn svf_set_f_q(state: &mut [f32; 5], f: f32, resonance: f32, approximation: u32) -> u8
    ensures { Sets (unknown_refusal last_approximation approximation then frequency_refusal f (approximation_of approximation))
        state.old (svf_fields (svf_set_f_q (svf_from state.old) f resonance (approximation_of approximation))) result state.new }
{
    set(
        state,
        approximation,
        |filter: &mut Svf, approximation| filter.set_f_q(f, resonance, approximation),
    )
}

pub fn svf_g(state: &[f32; 5]) -> f32
    ensures { result ≡ (svf_from state.now).g }
{
    Svf::from(*state).g()
}

pub fn svf_r(state: &[f32; 5]) -> f32
    ensures { result ≡ (svf_from state.now).r }
{
    Svf::from(*state).r()
}

pub fn svf_h(state: &[f32; 5]) -> f32
    ensures { result ≡ (svf_from state.now).h }
{
    Svf::from(*state).h()
}

// Refused with UNKNOWN, as each call below that takes a mode.
pub fn svf_process(state: &mut [f32; 5], in_: f32, mode: u32, out: &mut f32) -> u8
    ensures { Answers (unknown_refusal last_mode mode) state.old (svf_fields (svf_next (svf_from state.old) in_))
        out.old (svf_out (mode_of mode) (svf_from state.old) in_) result state.new out.new }
{
    filter_sample(
        state,
        mode,
        out,
        |filter: &mut Svf, mode| filter.process(in_, mode),
    )
}

pub fn svf_process_dual(
    state: &mut [f32; 5],
    in_: f32,
    out_1: &mut f32,
    out_2: &mut f32,
    mode_1: u32,
    mode_2: u32,
) -> u8
    ensures first { Answers (unknown_refusal last_mode mode_1 then unknown_refusal last_mode mode_2) state.old (svf_fields (svf_next (svf_from state.old) in_))
        out_1.old (svf_out (mode_of mode_1) (svf_from state.old) in_) result state.new out_1.new }
    ensures second { Answers (unknown_refusal last_mode mode_1 then unknown_refusal last_mode mode_2) state.old (svf_fields (svf_next (svf_from state.old) in_))
        out_2.old (svf_out (mode_of mode_2) (svf_from state.old) in_) result state.new out_2.new }
{
    let Ok(mode_1) = FilterMode::try_from(mode_1) else {
        return UNKNOWN;
    };
    let Ok(mode_2) = FilterMode::try_from(mode_2) else {
        return UNKNOWN;
    };
    let mut filter = Svf::from(*state);
    filter.process_dual(in_, out_1, out_2, mode_1, mode_2);
    *state = filter.into();
    0
}

// The buffer forms have bodies of their own: svf_retain hands back the state alone, so that the settings are not stored again.
#[tactic(auto, using(crate::proofs::Settings::kept))]
pub fn svf_process_buffer(state: &mut [f32; 5], in_: &[f32], out: &mut [f32], mode: u32) -> u8
    ensures { Runs svf_from svf_fields (unknown_refusal last_mode mode) (each svf_next) (puts (svf_out (mode_of mode)))
        state.old (within in_.now out.old) out.old result state.new out.new }
{
    let Ok(mode) = FilterMode::try_from(mode) else {
        return UNKNOWN;
    };
    let mut filter = Svf::from(*state);
    filter.process_buffer(in_, out, mode);
    filter_fields::svf_retain(state, filter);
    0
}

// The output is overwritten, and nothing is added, as the source does.
#[tactic(auto, using(crate::proofs::Settings::kept))]
pub fn svf_process_add_buffer(
    state: &mut [f32; 5],
    in_: &[f32],
    out: &mut [f32],
    gain: f32,
    mode: u32,
) -> u8
    ensures { Runs svf_from svf_fields (unknown_refusal last_mode mode) (each svf_next) (puts (svf_gained (mode_of mode) gain))
        state.old (within in_.now out.old) out.old result state.new out.new }
{
    let Ok(mode) = FilterMode::try_from(mode) else {
        return UNKNOWN;
    };
    let mut filter = Svf::from(*state);
    filter.process_add_buffer(in_, out, gain, mode);
    filter_fields::svf_retain(state, filter);
    0
}

// Refused with UNKNOWN, then with 10 where the stride is 0.
#[tactic(auto, using(crate::proofs::Settings::due_kept))]
pub fn svf_process_stride_buffer(
    state: &mut [f32; 5],
    in_: &[f32],
    out: &mut [f32],
    stride: usize,
    mode: u32,
) -> u8
    ensures { Runs svf_from svf_fields (unknown_refusal last_mode mode then step_refusal stride) (each_due stride svf_next) (puts_due stride (svf_out (mode_of mode)))
        state.old (within in_.now out.old) out.old result state.new out.new }
{
    let Ok(mode) = FilterMode::try_from(mode) else {
        return UNKNOWN;
    };
    let mut filter = Svf::from(*state);
    if let Err(refusal) = filter.process_stride_buffer(in_, out, stride, mode) {
        return refusal.into();
    }
    filter_fields::svf_retain(state, filter);
    0
}

#[tactic(auto, using(crate::proofs::Settings::kept))]
pub fn svf_process_multimode_buffer(state: &mut [f32; 5], in_: &[f32], out: &mut [f32], mode: f32)
    ensures { Filters svf_from svf_fields (each svf_next) (puts (svf_multimode mode))
        state.old (within in_.now out.old) out.old state.new out.new }
{
    let mut filter = Svf::from(*state);
    filter.process_multimode_buffer(in_, out, mode);
    filter_fields::svf_retain(state, filter);
}

#[tactic(auto, using(crate::proofs::Settings::kept))]
pub fn svf_process_add_dual_buffer(
    state: &mut [f32; 5],
    in_: &[f32],
    out_1: &mut [f32],
    out_2: &mut [f32],
    gain_1: f32,
    gain_2: f32,
    mode: u32,
) -> u8
    ensures first { Runs svf_from svf_fields (unknown_refusal last_mode mode) (each svf_next) (puts (svf_gained (mode_of mode) gain_1)) state.old
        (within (within in_.now out_1.old) out_2.old) out_1.old result state.new out_1.new }
    ensures second { Runs svf_from svf_fields (unknown_refusal last_mode mode) (each svf_next) (puts (svf_gained (mode_of mode) gain_2)) state.old
        (within (within in_.now out_1.old) out_2.old) out_2.old result state.new out_2.new }
{
    let Ok(mode) = FilterMode::try_from(mode) else {
        return UNKNOWN;
    };
    let mut filter = Svf::from(*state);
    filter.process_add_dual_buffer(in_, out_1, out_2, gain_1, gain_2, mode);
    filter_fields::svf_retain(state, filter);
    0
}
