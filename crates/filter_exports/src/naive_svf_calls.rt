// NaiveSvf: f, damp, lp, bp.

ghost use Rattle.std.specs.Prelude.{◌≡◌};
ghost use Rattle.filter_core.specs.Buffer.{within, each, puts, puts_due};
ghost use Rattle.filter_core.specs.Refusal.{frequency_refusal, step_refusal};
ghost use Rattle.naive_svf.specs.NaiveSvf.{naive_new, naive_init, naive_reset, naive_set_f_q, naive_next, naive_out, naive_low, naive_high};
ghost use Rattle.filter_core.specs.Rows.{◌then◌};
ghost use Rattle.filter_core.specs.Numbers.{last_mode, last_approximation, mode_of, approximation_of};
ghost use Rattle.filter_fields.specs.Numbers.{unknown_refusal};
ghost use Rattle.naive_svf.specs.Fields.{naive_from, naive_fields};
ghost use Rattle.filter_exports.specs.Calls.{Sets, Answers, Runs, Filters};

use crate::{change, filter_buffer, filter_sample, set};
use naive_svf::NaiveSvf;

pub fn naive_svf_new(state: &mut [f32; 4])
    ensures { state.new ≡ naive_fields naive_new }
{
    *state = NaiveSvf::new().into();
}

pub fn naive_svf_init(state: &mut [f32; 4])
    ensures { state.new ≡ naive_fields (naive_init (naive_from state.old)) }
{
    change(state, |filter: &mut NaiveSvf| filter.init());
}

pub fn naive_svf_reset(state: &mut [f32; 4])
    ensures { state.new ≡ naive_fields (naive_reset (naive_from state.old)) }
{
    change(state, |filter: &mut NaiveSvf| filter.reset());
}

// Refused with UNKNOWN, then with 11 where Exact gets an f below -0.497.
pub fn naive_svf_set_f_q(state: &mut [f32; 4], f: f32, resonance: f32, approximation: u32) -> u8
    ensures { Sets (unknown_refusal last_approximation approximation then frequency_refusal f (approximation_of approximation))
        state.old (naive_fields (naive_set_f_q (naive_from state.old) f resonance (approximation_of approximation))) result state.new }
{
    set(
        state,
        approximation,
        |filter: &mut NaiveSvf, approximation| filter.set_f_q(f, resonance, approximation),
    )
}

pub fn naive_svf_lp(state: &[f32; 4]) -> f32
    ensures { result ≡ (naive_from state.now).lp }
{
    NaiveSvf::from(*state).lp()
}

pub fn naive_svf_bp(state: &[f32; 4]) -> f32
    ensures { result ≡ (naive_from state.now).bp }
{
    NaiveSvf::from(*state).bp()
}

// Refused with UNKNOWN, as each call below that takes a mode.
pub fn naive_svf_process(state: &mut [f32; 4], in_: f32, mode: u32, out: &mut f32) -> u8
    ensures { Answers (unknown_refusal last_mode mode) state.old (naive_fields (naive_next (naive_from state.old) in_))
        out.old (naive_out (mode_of mode) (naive_from state.old) in_) result state.new out.new }
{
    filter_sample(
        state,
        mode,
        out,
        |filter: &mut NaiveSvf, mode| filter.process(in_, mode),
    )
}

pub fn naive_svf_process_buffer(state: &mut [f32; 4], in_: &[f32], out: &mut [f32], mode: u32) -> u8
    ensures { Runs naive_from naive_fields (unknown_refusal last_mode mode) (each naive_next) (puts (naive_out (mode_of mode)))
        state.old (within in_.now out.old) out.old result state.new out.new }
{
    filter_buffer(
        state,
        mode,
        out,
        |filter: &mut NaiveSvf, mode, out: &mut [f32]| {
            filter.process_buffer(in_, out, mode);
            Ok(())
        },
    )
}

pub fn naive_svf_split(state: &mut [f32; 4], in_: &[f32], low: &mut [f32], high: &mut [f32])
    ensures lows { Filters naive_from naive_fields (each naive_next) (puts naive_low) state.old
        (within (within in_.now low.old) high.old) low.old state.new low.new }
    ensures highs { Filters naive_from naive_fields (each naive_next) (puts naive_high) state.old
        (within (within in_.now low.old) high.old) high.old state.new high.new }
{
    let mut filter = NaiveSvf::from(*state);
    filter.split(in_, low, high);
    *state = filter.into();
}

// Refused with UNKNOWN, then with 10 where decimate is 0.
pub fn naive_svf_process_decimate(
    state: &mut [f32; 4],
    in_: &[f32],
    out: &mut [f32],
    decimate: usize,
    mode: u32,
) -> u8
    ensures { Runs naive_from naive_fields (unknown_refusal last_mode mode then step_refusal decimate) (each naive_next) (puts_due decimate (naive_out (mode_of mode)))
        state.old (within in_.now out.old) out.old result state.new out.new }
{
    filter_buffer(
        state,
        mode,
        out,
        |filter: &mut NaiveSvf, mode, out: &mut [f32]| {
            filter.process_decimate(in_, out, decimate, mode)
        },
    )
}
