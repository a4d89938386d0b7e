// How a run hands a filter back to the array of its fields that C and Rust lend, and the mode and the approximation of a number that is known
// to name one. What the array holds, and whether a number names any, is for the filters themselves: `From` and `TryFrom`.
#![tactic(auto)]

ghost use Rattle.std.specs.Prelude.{◌≡◌};
ghost use Rattle.filter_core.specs.Numbers.{mode_of, approximation_of};
ghost use Rattle.svf.specs.Fields.{svf_from, svf_fields};
ghost use Rattle.filter_fields.specs.Fields.{svf_retained};

use filter_core::{FilterMode, FrequencyApproximation};
use svf::Svf;

// For a caller that has asked already whether the number names a mode: it cannot fail, and takes any other number for the last.
pub fn mode_of(n: u32) -> FilterMode
    ensures { result ≡ mode_of n }
{
    FilterMode::try_from(n).unwrap_or(FilterMode::HighPass)
}

// The same for an approximation.
pub fn approximation_of(n: u32) -> FrequencyApproximation
    ensures { result ≡ approximation_of n }
{
    FrequencyApproximation::try_from(n).unwrap_or(FrequencyApproximation::Series)
}

// Hands back the state of a filter whose settings are still those of the array, as a run changes no other field.
pub fn svf_retain(fields: &mut [f32; 5], s: Svf)
    ensures { fields.new ≡ svf_fields (svf_retained (svf_from fields.old) s) }
{
    *fields = [fields[0], fields[1], fields[2], s.state_1, s.state_2];
}
