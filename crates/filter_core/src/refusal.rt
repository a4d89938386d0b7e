// Why a call is refused, and the two refusals of the filters' own calls.

ghost use Rattle.std.specs.Prelude.{◌≡◌};
ghost use Rattle.filter_core.specs.Refusal.{number, number_in, step_refusal, frequency_refusal};

use crate::FrequencyApproximation;

// The rows of the refusal table of document 01, and of 02 those that b, f, h, i, j and k add. A row's number is its variant's.
#[derive(Clone, Copy, Debug, PartialEq, Eq)]
pub enum Refusal {
    Head = 1,
    Size = 2,
    Kind = 3,
    Word = 4,
    Entry = 5,
    Bare = 6,
    Mark = 7,
    Full = 8,
    Form = 9,
    Step = 10,
    Frequency = 11,
    Short = 12,
    Waiting = 13,
    Samples = 14,
    Series = 15,
    Unfinished = 16,
    Finished = 17,
    Count = 18,
    Partial = 19,
    Frame = 20,
}

impl From<Refusal> for u8 {
    ghost from_gives = { λ refusal n. n ≡ number refusal };

    fn from(refusal: Refusal) -> u8 {
        refusal as u8
    }
}

// The number that a call answers where there is no Result, as in C and in text: 0 for one that is accepted.
pub fn number_in<T: Copy>(answer: Result<T, Refusal>) -> u8
    ensures { result ≡ number_in answer }
{
    match answer {
        Ok(_) => 0,
        Err(refusal) => u8::from(refusal),
    }
}

// A stride or a decimation is not 0.
pub fn check_step(step: usize) -> Result<(), Refusal>
    ensures { number_in result ≡ step_refusal step }
{
    if step == 0 {
        Err(Refusal::Step)
    } else {
        Ok(())
    }
}

// The lowest frequency that Exact takes: the negative of where it clips.
pub const EXACT_LOWEST: f32 = -0.497;

// Exact takes no frequency below that; the others take every one. The two are parameters here and in the setters, as the source has them.
pub fn check_frequency(f: f32, approximation: FrequencyApproximation) -> Result<(), Refusal>
    ensures { number_in result ≡ frequency_refusal f approximation }
{
    match approximation {
        FrequencyApproximation::Exact if f < EXACT_LOWEST => Err(Refusal::Frequency),
        _ => Ok(()),
    }
}
