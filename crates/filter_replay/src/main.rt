// Replays a fixed sample of the source's answers: reads it from standard input, calls the proved filters with what each record says, and
// compares what they leave, all NaNs as one. Writes how many records of each type agree, and each that does not.
//
// The sample is of blocks of 272 bytes. The first is text, and says by which command the file was made. Every other is a record of 68
// words, low byte first:
//   0 method, 1 and 2 modes or approximation, 3 and 4 step (low word first), 5 to 7 numbers, 8 to 10 lengths of the input and of two outputs,
//   11 refusal, 12 state (8 words), 20 input, 28 and 36 outputs before the call, 44 state after it, 52 and 60 outputs after it.

#![tactic(auto)]

use calls::Call;
use std::io::{Read, Result};

mod calls;
mod record;

fn call_of(w: &[u32; 68]) -> Call {
    Call {
        method: w[0],
        a: w[1],
        b: w[2],
        step: (u64::from(w[3]) | (u64::from(w[4]) << 32)) as usize,
        p: words::word_to_f32(w[5]),
        q: words::word_to_f32(w[6]),
        r: words::word_to_f32(w[7]),
    }
}

// Calls the method with what the record says: the state and the outputs become what the call leaves. A buffer form is lent as much of each
// buffer as the record says, and there is no call where that is more than the buffer has. No plainer with the buffers as one: the calls take
// them as parameters.
fn answer(
    w: &[u32; 68],
    state: &mut [f32; 8],
    input: &[f32; 8],
    out_1: &mut [f32; 8],
    out_2: &mut [f32; 8],
) -> Option<u8> {
    let call = call_of(w);
    if call.method < 100 {
        return calls::sample(call, state, input, &mut out_1[0], &mut out_2[0]);
    }
    calls::buffers(
        call,
        state,
        input.get(..w[8] as usize)?,
        out_1.get_mut(..w[9] as usize)?,
        out_2.get_mut(..w[10] as usize)?,
    )
}

// The number of a record whose call there is not: no method has its number, or a buffer is shorter than the record says.
const NO_CALL: u8 = 255;

fn agrees(w: &[u32; 68]) -> bool {
    let mut state = record::eight(w, 12);
    let input = record::eight(w, 20);
    let mut out_1 = record::eight(w, 28);
    let mut out_2 = record::eight(w, 36);
    let number = answer(w, &mut state, &input, &mut out_1, &mut out_2).unwrap_or(NO_CALL);
    w[11] == u32::from(number)
        && record::same(&state, w, 44)
        && record::same(&out_1, w, 52)
        && record::same(&out_2, w, 60)
}

// The next record; None at the end.
fn next_record<F: Read>(from: &mut F) -> Option<[u32; 68]> {
    let mut block = [0u8; 272];
    from.read_exact(&mut block).ok()?;
    Some(record::record(&block))
}

// The records that agree, by type, and those that differ.
#[derive(Clone, Copy, Default)]
struct Counts {
    dc_blocker: u64,
    one_pole: u64,
    svf: u64,
    naive_svf: u64,
    modified_svf: u64,
    crossover_svf: u64,
    differ: u64,
}

// A proved loop has to end, and nothing says that a file does: so many records are read at most.
const MOST: u64 = 1000000;

impl Counts {
    // One more that agrees, of the type that the method belongs to. The number is matched as it comes in.
    fn agree(&mut self, method: u32) {
        let count = match method % 100 {
            0..=19 => &mut self.dc_blocker,
            20..=29 => &mut self.one_pole,
            30..=49 => &mut self.svf,
            50..=59 => &mut self.naive_svf,
            60..=69 => &mut self.modified_svf,
            _ => &mut self.crossover_svf,
        };
        *count = count.saturating_add(1);
    }

    fn differ(&mut self) {
        self.differ = self.differ.saturating_add(1);
    }
}

fn print<R: Print>(rt: &R, name: &str, n: u64) -> Result<()> {
    println!(rt; "{name}{n}")
}

fn report<R: Print>(rt: &R, counts: Counts) -> Result<()> {
    print(rt, "DcBlocker ok ", counts.dc_blocker)?;
    print(rt, "OnePole ok ", counts.one_pole)?;
    print(rt, "Svf ok ", counts.svf)?;
    print(rt, "NaiveSvf ok ", counts.naive_svf)?;
    print(rt, "ModifiedSvf ok ", counts.modified_svf)?;
    print(rt, "CrossoverSvf ok ", counts.crossover_svf)?;
    print(rt, "different ", counts.differ)
}

fn replay<R: Print, F: Read>(rt: &R, from: &mut F) -> Result<()> {
    let mut counts = Counts::default();
    for _ in 0..MOST {
        let Some(w) = next_record(from) else {
            break;
        };
        if agrees(&w) {
            counts.agree(w[0]);
        } else {
            print(rt, "differs: method ", u64::from(w[0]))?;
            counts.differ();
        }
    }
    report(rt, counts)
}

// The first block is passed over. Where there is none, no record follows either.
fn main(rt: HostRuntime) -> Result<()> {
    let mut from = rt.stdin();
    let mut head = [0u8; 272];
    let _ = from.read_exact(&mut head);
    replay(&rt, &mut from)
}
