// CrossoverSvf: f, fq, x of both passes, lp of both, bp of both.

ghost use Rattle.std.specs.Prelude.{◌≡◌};
ghost use Rattle.filter_core.specs.Buffer.{within, each, puts};
ghost use Rattle.crossover_svf.specs.CrossoverSvf.{crossover_new, crossover_init, crossover_reset, crossover_set_f_fq, crossover_next, crossover_out};
ghost use Rattle.filter_core.specs.Numbers.{last_mode, mode_of};
ghost use Rattle.filter_fields.specs.Numbers.{unknown_refusal};
ghost use Rattle.crossover_svf.specs.Fields.{crossover_from, crossover_fields};
ghost use Rattle.filter_exports.specs.Calls.{Runs};

use crate::{change, filter_buffer};
use crossover_svf::CrossoverSvf;

pub fn crossover_svf_new(state: &mut [f32; 8])
    ensures { state.new ≡ crossover_fields crossover_new }
{
    *state = CrossoverSvf::new().into();
}

pub fn crossover_svf_init(state: &mut [f32; 8])
    ensures { state.new ≡ crossover_fields (crossover_init (crossover_from state.old)) }
{
    change(state, |filter: &mut CrossoverSvf| filter.init());
}

pub fn crossover_svf_reset(state: &mut [f32; 8])
    ensures { state.new ≡ crossover_fields (crossover_reset (crossover_from state.old)) }
{
    change(state, |filter: &mut CrossoverSvf| filter.reset());
}

pub fn crossover_svf_set_f_fq(state: &mut [f32; 8], f: f32, fq: f32)
    ensures { state.new ≡ crossover_fields (crossover_set_f_fq (crossover_from state.old) f fq) }
{
    change(state, |filter: &mut CrossoverSvf| filter.set_f_fq(f, fq));
}

// Refused with UNKNOWN.
pub fn crossover_svf_process(state: &mut [f32; 8], in_: &[f32], out: &mut [f32], mode: u32) -> u8
    ensures { Runs crossover_from crossover_fields (unknown_refusal last_mode mode) (each (crossover_next (mode_of mode))) (puts (crossover_out (mode_of mode)))
        state.old (within in_.now out.old) out.old result state.new out.new }
{
    filter_buffer(
        state,
        mode,
        out,
        |filter: &mut CrossoverSvf, mode, out: &mut [f32]| {
            filter.process(in_, out, mode);
            Ok(())
        },
    )
}
