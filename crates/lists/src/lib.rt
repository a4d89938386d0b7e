// What is written over an output from a place on, and the refusal of an output that is too short. specs/ and proofs/ also have tables, the
// lists of a function's first values, for the crates that speak of them.
#![tactic(auto)]

ghost use Rattle.std.specs.Prelude.{◌≡◌};
ghost use Rattle.filter_core.specs.Refusal.{number_in};
ghost use Rattle.lists.specs.Over.{over, Puts};
ghost use Rattle.lists.specs.Room.{room_refusal};

use filter_core::Refusal;

// The source into the output from the place `at` on. What has no room is left out, so a place past the end takes nothing.
#[tactic(auto, using(crate::proofs::Over::over_past, crate::proofs::Over::over_part))]
pub fn copy<T: Copy>(source: &[T], output: &mut [T], at: usize)
    ensures { output.new ≡ over at source.now output.old }
{
    if output.len() <= at {
        return;
    }
    let n = source.len().min(output.len() - at);
    output[at..at + n].copy_from_slice(&source[..n]);
}

// The same, and answers the place behind.
pub fn put<T: Copy>(source: &[T], output: &mut [T], at: usize) -> usize
    ensures { Puts at source.now output.old result output.new }
{
    copy(source, output, at);
    at + source.len().min(output.len().saturating_sub(at))
}

// An output has room for what a call is to write to it.
pub fn check_room(length: usize, room: usize) -> Result<(), Refusal>
    ensures { number_in result ≡ room_refusal length room }
{
    if room < length {
        Err(Refusal::Short)
    } else {
        Ok(())
    }
}
