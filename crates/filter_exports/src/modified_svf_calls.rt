// ModifiedSvf: f, fq, x, lp, bp.

ghost use Rattle.std.specs.Prelude.{◌≡◌};
ghost use Rattle.filter_core.specs.Buffer.{within, each, puts};
ghost use Rattle.modified_svf.specs.ModifiedSvf.{modified_new, modified_init, modified_reset, modified_set_f_fq, modified_next, modified_out};
ghost use Rattle.filter_core.specs.Numbers.{last_mode, mode_of};
ghost use Rattle.filter_fields.specs.Numbers.{unknown_refusal};
ghost use Rattle.modified_svf.specs.Fields.{modified_from, modified_fields};
ghost use Rattle.filter_exports.specs.Calls.{Runs};

use crate::{change, filter_buffer};
use modified_svf::ModifiedSvf;

pub fn modified_svf_new(state: &mut [f32; 5])
    ensures { state.new ≡ modified_fields modified_new }
{
    *state = ModifiedSvf::new().into();
}

pub fn modified_svf_init(state: &mut [f32; 5])
    ensures { state.new ≡ modified_fields (modified_init (modified_from state.old)) }
{
    change(state, |filter: &mut ModifiedSvf| filter.init());
}

pub fn modified_svf_reset(state: &mut [f32; 5])
    ensures { state.new ≡ modified_fields (modified_reset (modified_from state.old)) }
{
    change(state, |filter: &mut ModifiedSvf| filter.reset());
}

pub fn modified_svf_set_f_fq(state: &mut [f32; 5], f: f32, fq: f32)
    ensures { state.new ≡ modified_fields (modified_set_f_fq (modified_from state.old) f fq) }
{
    change(state, |filter: &mut ModifiedSvf| filter.set_f_fq(f, fq));
}

// Refused with UNKNOWN.
pub fn modified_svf_process(state: &mut [f32; 5], in_: &[f32], out: &mut [f32], mode: u32) -> u8
    ensures { Runs modified_from modified_fields (unknown_refusal last_mode mode) (each (modified_next (mode_of mode))) (puts (modified_out (mode_of mode)))
        state.old (within in_.now out.old) out.old result state.new out.new }
{
    filter_buffer(
        state,
        mode,
        out,
        |filter: &mut ModifiedSvf, mode, out: &mut [f32]| {
            filter.process(in_, out, mode);
            Ok(())
        },
    )
}
