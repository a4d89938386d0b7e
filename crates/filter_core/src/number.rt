// Modes and approximations by number, as C has them: 0 LowPass, 1 BandPass, 2 BandPassNormalized, 3 HighPass; 0 Exact, 1 Accurate, 2 Fast,
// 3 Dirty, 4 Series. A number is matched here, where it comes in, and nowhere behind.

ghost use Rattle.std.specs.Prelude.{◌≤◌};
ghost use Rattle.std.specs.Result.{OkIff};
ghost use Rattle.filter_core.specs.Numbers.{last_mode, last_approximation, mode_of, approximation_of};

use crate::{FilterMode, FrequencyApproximation};

// A number that names no mode, or no approximation.
#[derive(Clone, Copy, Debug, PartialEq, Eq)]
pub struct UnknownNumber;

// The number is as wide as C's int, so that 256 and -1 arrive whole and are refused: a u8 would have cut 256 to 0, LowPass.
impl TryFrom<u32> for FilterMode {
    type Error = UnknownNumber;

    ghost try_from_gives = { λ n mode. OkIff mode (n ≤ last_mode) (mode_of n) };

    fn try_from(n: u32) -> Result<FilterMode, UnknownNumber> {
        match n {
            0 => Ok(FilterMode::LowPass),
            1 => Ok(FilterMode::BandPass),
            2 => Ok(FilterMode::BandPassNormalized),
            3 => Ok(FilterMode::HighPass),
            _ => Err(UnknownNumber),
        }
    }
}

impl TryFrom<u32> for FrequencyApproximation {
    type Error = UnknownNumber;

    ghost try_from_gives = { λ n approximation. OkIff approximation (n ≤ last_approximation) (approximation_of n) };

    fn try_from(n: u32) -> Result<FrequencyApproximation, UnknownNumber> {
        match n {
            0 => Ok(FrequencyApproximation::Exact),
            1 => Ok(FrequencyApproximation::Accurate),
            2 => Ok(FrequencyApproximation::Fast),
            3 => Ok(FrequencyApproximation::Dirty),
            4 => Ok(FrequencyApproximation::Series),
            _ => Err(UnknownNumber),
        }
    }
}
