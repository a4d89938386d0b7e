// Svf: g, r, h, state_1, state_2.

ghost use Rattle.std.specs.Prelude.{◌≡◌};
ghost use Rattle.filter_core.specs.Buffer.{within, each, puts, each_due, puts_due};
ghost use Rattle.filter_core.specs.Refusal.{frequency_refusal, step_refusal};
ghost use Rattle.svf.specs.Svf.{svf_new, svf_init, svf_reset, svf_set, svf_set_g_r_h, svf_set_g_r, svf_set_g_q, svf_set_f_q};
ghost use Rattle.svf.specs.Svf.{svf_next, svf_out, svf_gained, svf_multimode};
ghost use Rattle.filter_core.specs.Rows.{◌then◌};
ghost use Rattle.filter_core.specs.Numbers.{last_mode, last_approximation, mode_of, approximation_of};
ghost use Rattle.filter_fields.specs.Numbers.{unknown_refusal};
ghost use Rattle.svf.specs.Fields.{svf_from, svf_fields};
ghost use Rattle.filter_exports.specs.Calls.{Sets, Answers, Runs, Filters};

#[unsafe(no_mangle)]
pub extern "C" fn svf_new(state: &mut [f32; 5])
    ensures { state.new ≡ svf_fields svf_new }
{
    filter_exports::svf_calls::svf_new(state);
}

#[unsafe(no_mangle)]
pub extern "C" fn svf_init(state: &mut [f32; 5])
    ensures { state.new ≡ svf_fields (svf_init (svf_from state.old)) }
{
    filter_exports::svf_calls::svf_init(state);
}

#[unsafe(no_mangle)]
pub extern "C" fn svf_reset(state: &mut [f32; 5])
    ensures { state.new ≡ svf_fields (svf_reset (svf_from state.old)) }
{
    filter_exports::svf_calls::svf_reset(state);
}

#[unsafe(no_mangle)]
pub extern "C" fn svf_set(state: &mut [f32; 5], other: &[f32; 5])
    ensures { state.new ≡ svf_fields (svf_set (svf_from state.old) (svf_from other.now)) }
{
    filter_exports::svf_calls::svf_set(state, other);
}

#[unsafe(no_mangle)]
pub extern "C" fn svf_set_g_r_h(state: &mut [f32; 5], g: f32, r: f32, h: f32)
    ensures { state.new ≡ svf_fields (svf_set_g_r_h (svf_from state.old) g r h) }
{
    filter_exports::svf_calls::svf_set_g_r_h(state, g, r, h);
}

#[unsafe(no_mangle)]
pub extern "C" fn svf_set_g_r(state: &mut [f32; 5], g: f32, r: f32)
    ensures { state.new ≡ svf_fields (svf_set_g_r (svf_from state.old) g r) }
{
    filter_exports::svf_calls::svf_set_g_r(state, g, r);
}

#[unsafe(no_mangle)]
pub extern "C" fn svf_set_g_q(state: &mut [f32; 5], g: f32, resonance: f32)
    ensures { state.new ≡ svf_fields (svf_set_g_q (svf_from state.old) g resonance) }
{
    filter_exports::svf_calls::svf_set_g_q(state, g, resonance);
}

// Refused with UNKNOWN, then with 11 where Exact gets an f below -0.497.
#[unsafe(no_mangle)]
pub extern "C" fn svf_set_f_q(
    state: &mut [f32; 5],
    f: f32,
    resonance: f32,
    approximation: u32,
) -> u8
    ensures { Sets (unknown_refusal last_approximation approximation then frequency_refusal f (approximation_of approximation))
        state.old (svf_fields (svf_set_f_q (svf_from state.old) f resonance (approximation_of approximation))) result state.new }
{
    filter_exports::svf_calls::svf_set_f_q(state, f, resonance, approximation)
}

#[unsafe(no_mangle)]
pub extern "C" fn svf_g(state: &[f32; 5]) -> f32
    ensures { result ≡ (svf_from state.now).g }
{
    filter_exports::svf_calls::svf_g(state)
}

#[unsafe(no_mangle)]
pub extern "C" fn svf_r(state: &[f32; 5]) -> f32
    ensures { result ≡ (svf_from state.now).r }
{
    filter_exports::svf_calls::svf_r(state)
}

#[unsafe(no_mangle)]
pub extern "C" fn svf_h(state: &[f32; 5]) -> f32
    ensures { result ≡ (svf_from state.now).h }
{
    filter_exports::svf_calls::svf_h(state)
}

// Refused with UNKNOWN, as each call below that takes a mode.
#[unsafe(no_mangle)]
pub extern "C" fn svf_process(state: &mut [f32; 5], in_: f32, mode: u32, out: &mut f32) -> u8
    ensures { Answers (unknown_refusal last_mode mode) state.old (svf_fields (svf_next (svf_from state.old) in_))
        out.old (svf_out (mode_of mode) (svf_from state.old) in_) result state.new out.new }
{
    filter_exports::svf_calls::svf_process(state, in_, mode, out)
}

#[unsafe(no_mangle)]
pub extern "C" fn svf_process_dual(
    state: &mut [f32; 5],
    in_: f32,
    out_1: &mut f32,
    out_2: &mut f32,
    mode_1: u32,
    mode_2: u32,
) -> u8
    ensures first { Answers (unknown_refusal last_mode mode_1 then unknown_refusal last_mode mode_2) state.old (svf_fields (svf_next (svf_from state.old) in_))
        out_1.old (svf_out (mode_of mode_1) (svf_from state.old) in_) result state.new out_1.new }
    ensures second { Answers (unknown_refusal last_mode mode_1 then unknown_refusal last_mode mode_2) state.old (svf_fields (svf_next (svf_from state.old) in_))
        out_2.old (svf_out (mode_of mode_2) (svf_from state.old) in_) result state.new out_2.new }
{
    filter_exports::svf_calls::svf_process_dual(state, in_, out_1, out_2, mode_1, mode_2)
}

#[unsafe(no_mangle)]
pub extern "C" fn svf_process_buffer(
    state: &mut [f32; 5],
    in_: &[f32],
    out: &mut [f32],
    mode: u32,
) -> u8
    ensures { Runs svf_from svf_fields (unknown_refusal last_mode mode) (each svf_next) (puts (svf_out (mode_of mode)))
        state.old (within in_.now out.old) out.old result state.new out.new }
{
    filter_exports::svf_calls::svf_process_buffer(state, in_, out, mode)
}

// The output is overwritten, and nothing is added, as the source does.
#[unsafe(no_mangle)]
pub extern "C" fn svf_process_add_buffer(
    state: &mut [f32; 5],
    in_: &[f32],
    out: &mut [f32],
    gain: f32,
    mode: u32,
) -> u8
    ensures { Runs svf_from svf_fields (unknown_refusal last_mode mode) (each svf_next) (puts (svf_gained (mode_of mode) gain))
        state.old (within in_.now out.old) out.old result state.new out.new }
{
    filter_exports::svf_calls::svf_process_add_buffer(state, in_, out, gain, mode)
}

// Refused with UNKNOWN, then with 10 where the stride is 0.
#[unsafe(no_mangle)]
pub extern "C" fn svf_process_stride_buffer(
    state: &mut [f32; 5],
    in_: &[f32],
    out: &mut [f32],
    stride: usize,
    mode: u32,
) -> u8
    ensures { Runs svf_from svf_fields (unknown_refusal last_mode mode then step_refusal stride) (each_due stride svf_next) (puts_due stride (svf_out (mode_of mode)))
        state.old (within in_.now out.old) out.old result state.new out.new }
{
    filter_exports::svf_calls::svf_process_stride_buffer(state, in_, out, stride, mode)
}

#[unsafe(no_mangle)]
pub extern "C" fn svf_process_multimode_buffer(
    state: &mut [f32; 5],
    in_: &[f32],
    out: &mut [f32],
    mode: f32,
)
    ensures { Filters svf_from svf_fields (each svf_next) (puts (svf_multimode mode))
        state.old (within in_.now out.old) out.old state.new out.new }
{
    filter_exports::svf_calls::svf_process_multimode_buffer(state, in_, out, mode);
}

#[unsafe(no_mangle)]
pub extern "C" fn svf_process_add_dual_buffer(
    state: &mut [f32; 5],
    in_: &[f32],
    out_1: &mut [f32],
    out_2: &mut [f32],
    gain_1: f32,
    gain_2: f32,
    mode: u32,
) -> u8
    ensures first { Runs svf_from svf_fields (unknown_refusal last_mode mode) (each svf_next) (puts (svf_gained (mode_of mode) gain_1)) state.old
        (within (within in_.now out_1.old) out_2.old) out_1.old result state.new out_1.new }
    ensures second { Runs svf_from svf_fields (unknown_refusal last_mode mode) (each svf_next) (puts (svf_gained (mode_of mode) gain_2)) state.old
        (within (within in_.now out_1.old) out_2.old) out_2.old result state.new out_2.new }
{
    filter_exports::svf_calls::svf_process_add_dual_buffer(
        state, in_, out_1, out_2, gain_1, gain_2, mode,
    )
}
