// Samples in planes (02 j), to store a trace: samples of four bytes are rearranged so that the bytes that stand at one place in each stand
// together, and back. It needs no frame, and touches none.
#![tactic(auto)]

ghost use Rattle.std.specs.Prelude.{◌≡◌, ◌≤◌, ◌+◌, ◌*◌, ◌++◌, length, take, drop, IfOk};
ghost use Rattle.filter_core.specs.Refusal.{number_in};
ghost use Rattle.std.specs.Int.{w32, to_le_bytes};
ghost use Rattle.planes.specs.Planes.{planes_of, samples_of, partial_refusal, arrange_refusal, arrange_number, arranged};
ghost use Rattle.planes.specs.Rows.{ArrangeByRows, KeepsTheRest};
ghost use Rattle.planes.specs.RoundTrip.{IndexLaw, Rearranges, RoundTrip};

use filter_core::Refusal;

// ---- the refusals

fn check_whole(length: usize) -> Result<(), Refusal>
    ensures { number_in result ≡ partial_refusal length }
{
    if length % 4 == 0 {
        Ok(())
    } else {
        Err(Refusal::Partial)
    }
}

fn check(length: usize, room: usize) -> Result<(), Refusal>
    ensures { number_in result ≡ arrange_refusal length room }
{
    check_whole(length)?;
    lists::check_room(length, room)
}

// ---- the arrangements

// The sample whose low byte stands at `at`, as a word. A function of its own, for then the compiler makes one load of the four: where it sees
// the bytes alone, the loop takes four times as long.
#[tactic(auto, using(words::proofs::Words::bytes_at_place))]
fn sample_at(samples: &[u8], at: usize) -> u32
    requires { at + 4 ≤ length samples.now }
    ensures { to_le_bytes w32 result ≡ take 4 (drop at samples.now) }
{
    u32::from_le_bytes([
        samples[at],
        samples[at + 1],
        samples[at + 2],
        samples[at + 3],
    ])
}

// n samples into their planes.
fn put_planes(samples: &[u8], n: usize, output: &mut [u8])
    requires whole { 4 * n ≤ length samples.now }
    requires room { 4 * n ≤ length output.old }
    ensures { output.new ≡ planes_of n samples.now ++ drop (4 * n) output.old }
{
    let (first, rest) = output.split_at_mut(n);
    let (second, rest) = rest.split_at_mut(n);
    let (third, rest) = rest.split_at_mut(n);
    let (fourth, _) = rest.split_at_mut(n);
    for i in 0..n {
        let [a, b, c, d] = sample_at(samples, 4 * i).to_le_bytes();
        first[i] = a;
        second[i] = b;
        third[i] = c;
        fourth[i] = d;
    }
}

// n samples out of their planes.
fn put_samples(planes: &[u8], n: usize, output: &mut [u8])
    requires whole { 4 * n ≤ length planes.now }
    requires room { 4 * n ≤ length output.old }
    ensures { output.new ≡ samples_of n planes.now ++ drop (4 * n) output.old }
{
    for i in 0..n {
        output[4 * i] = planes[i];
        output[4 * i + 1] = planes[n + i];
        output[4 * i + 2] = planes[2 * n + i];
        output[4 * i + 3] = planes[3 * n + i];
    }
}

// ---- the calls

// The samples into their planes. Answers how many bytes it wrote, as many as the input has. Later places of the output keep their contents,
// and a refused call writes nothing.
pub fn samples_to_planes(samples: &[u8], output: &mut [u8]) -> Result<usize, Refusal>
    ensures refusal { number_in result ≡ arrange_number samples.now output.old }
    ensures answer { IfOk result (λ answer. answer ≡ length samples.now) }
    ensures output_after { output.new ≡ arranged planes_of samples.now output.old }
{
    check(samples.len(), output.len())?;
    put_planes(samples, samples.len() / 4, output);
    Ok(samples.len())
}

// Planes into the samples that they are of. Answers and refuses as `samples_to_planes` does.
pub fn planes_to_samples(planes: &[u8], output: &mut [u8]) -> Result<usize, Refusal>
    ensures refusal { number_in result ≡ arrange_number planes.now output.old }
    ensures answer { IfOk result (λ answer. answer ≡ length planes.now) }
    ensures output_after { output.new ≡ arranged samples_of planes.now output.old }
{
    check(planes.len(), output.len())?;
    put_samples(planes, planes.len() / 4, output);
    Ok(planes.len())
}

// ---- the theorems

// Where each byte of a sample stands in the planes, and back.
#[tactic(auto, using(crate::proofs::Turns::index_law))]
pub fn index_law()
    ensures { IndexLaw }
{}

// No byte is lost, and none is made.
#[tactic(auto, using(crate::proofs::Turns::rearranges))]
pub fn rearranges()
    ensures { Rearranges }
{}

// Both calls answer each number in its row's case, and in no other.
#[tactic(auto, using(crate::proofs::Rows::arrange_by_rows))]
pub fn arrange_by_rows()
    ensures { ArrangeByRows }
{}

// The places behind the input's bytes keep their contents; after a refused call all do.
#[tactic(auto, using(crate::proofs::Calls::keeps_the_rest))]
pub fn keeps_the_rest()
    ensures { KeepsTheRest }
{}

// Each arrangement undoes the other, in either order, on any bytes.
#[tactic(auto, using(crate::proofs::Calls::round_trip))]
pub fn round_trip()
    ensures { RoundTrip }
{}
