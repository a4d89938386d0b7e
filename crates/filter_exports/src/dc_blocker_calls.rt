// DcBlocker: pole, x, y.

ghost use Rattle.std.specs.Prelude.{◌≡◌};
ghost use Rattle.filter_core.specs.Buffer.{each, puts};
ghost use Rattle.dc_blocker.specs.DcBlocker.{dc_new, dc_init, dc_next, dc_out};
ghost use Rattle.dc_blocker.specs.Fields.{dc_from, dc_fields};
ghost use Rattle.filter_exports.specs.Calls.{Filters};

use crate::change;
use dc_blocker::DcBlocker;

pub fn dc_blocker_new(state: &mut [f32; 3])
    ensures { state.new ≡ dc_fields dc_new }
{
    *state = DcBlocker::new().into();
}

pub fn dc_blocker_init(state: &mut [f32; 3], pole: f32)
    ensures { state.new ≡ dc_fields (dc_init (dc_from state.old) pole) }
{
    change(state, |filter: &mut DcBlocker| filter.init(pole));
}

// The one call with an output and no mode: `change` has no output.
pub fn dc_blocker_process(state: &mut [f32; 3], in_out: &mut [f32])
    ensures { Filters dc_from dc_fields (each dc_next) (puts dc_out)
        state.old in_out.old in_out.old state.new in_out.new }
{
    let mut filter = DcBlocker::from(*state);
    filter.process(in_out);
    *state = filter.into();
}
