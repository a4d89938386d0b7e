// 48,000 samples through the Svf, timed, through a head of the frame or by the filter alone: two of the sides of `tools/bench --svf`, which
// starts this program and talks to it in bytes, low byte first. It is sent the length of a run and the mode, a word each, a sheet of one
// entry, an Svf, and the samples. For each byte that comes then, it loads the entry into a head, runs the samples through the head's filter
// and answers how many nanoseconds the runs took, the eight numbers of the filter and the outputs, a word each. The byte 1 has the outputs
// cleared before, outside of the time; else they are what the runs before wrote. Where the length of a run is 0, there is no head: the
// filter is called once, with all samples.

#![tactic(auto)]

use any_filter::Filter;
use arrayvec::ArrayVec;
use filters::{FilterMode, FrequencyApproximation, Svf};
use frame::Frame;
use runs::RunForm;
use std::io;
use std::io::{Read, Write};
use std::num::NonZeroUsize;
use std::time::{CpuClock, Duration};

// Where the mode, the sheet and two words of its entry stand, where the samples begin, how many they are, and where they end.
const MODE: usize = 4;

const SHEET: usize = 8;

const FREQUENCY: usize = 11;

const RESONANCE: usize = 15;

const SAMPLES: usize = 23;

const COUNT: usize = 48000;

const END: usize = SAMPLES + 4 * COUNT;

// Bytes of an answer: the time, the numbers and the outputs, a word each.
const ANSWER: usize = 4 * (1 + 8 + COUNT);

// The side that is run: the filter by itself, all samples in one call, or through a head of the frame, in runs of a length.
#[derive(Drop)]
enum Side {
    Alone(Svf),
    Framed { frame: Frame, length: NonZeroUsize },
}

#[derive(Drop)]
struct Task {
    side: Side,
    mode: FilterMode,
}

fn main(rt: HostRuntime) {
    let mut sent = [0u8; END];
    if rt.stdin().read_exact(&mut sent).is_err() {
        let _ = rt.stdout().write_all(
            b"cost_of_frame: times the samples that tools/bench --svf sends it\n",
        );
        return;
    }
    let mut input = [0.0f32; COUNT];
    samples(&sent, &mut input);
    let mut out = [0.0f32; COUNT];
    let mut task = task_of(&sent);
    // It ends where no turn comes.
    let _ = serve(rt, &mut task, &input, &mut out);
}

fn float_at(sent: &[u8], at: usize) -> f32 {
    words::word_to_f32(words::word_at(sent, at))
}

// What is sent is a sheet, and a frequency and a mode that there are: the benchmark sends no other. A save is begun, so that the runs are
// timed while one is unfinished; before each of them a head is told to wait.
fn framed(sent: &[u8; END], length: NonZeroUsize) -> Side {
    let mut frame = Frame::fresh();
    let _ = frame.open(&sent[SHEET..SAMPLES]);
    let _ = frame.begin();
    Side::Framed { frame, length }
}

fn alone(sent: &[u8; END]) -> Side {
    let mut filter = Svf::new();
    let _ = filter.set_f_q(
        float_at(sent, FREQUENCY),
        float_at(sent, RESONANCE),
        FrequencyApproximation::Exact,
    );
    Side::Alone(filter)
}

// The length of a run is 0 where there is no head.
fn task_of(sent: &[u8; END]) -> Task {
    let side = match NonZeroUsize::new(words::word_at(sent, 0) as usize) {
        Some(length) => framed(sent, length),
        None => alone(sent),
    };
    Task {
        side,
        mode: FilterMode::try_from(words::word_at(sent, MODE)).unwrap_or(FilterMode::HighPass),
    }
}

fn samples(sent: &[u8], input: &mut [f32]) {
    let n = input.len().min(COUNT);
    for i in 0..n {
        input[i] = float_at(sent, SAMPLES + 4 * i);
    }
}

// A proved loop has to end, and nothing says that the turns do. So the loop has a number of turns that nothing uses up.
fn serve(rt: HostRuntime, task: &mut Task, input: &[f32], out: &mut [f32]) -> io::Result<()> {
    let mut turn = [0u8; 1];
    for _ in 0..u64::MAX {
        rt.stdin().read_exact(&mut turn)?;
        // The turn 1 has the outputs cleared. The byte is compared as it comes in.
        if turn[0] == 1 {
            out.fill(0.0);
        }
        // An answer that cannot be written is lost, and the next turn is taken all the same.
        let _ = take_turn(rt, task, input, out);
    }
    Ok(())
}

// No plainer with the input and the output as one: two parameters, of which one is lent to be changed.
fn take_turn(rt: HostRuntime, task: &mut Task, input: &[f32], out: &mut [f32]) -> io::Result<()> {
    match &mut task.side {
        Side::Alone(filter) => run_alone(rt, *filter, task.mode, input, out),
        Side::Framed { frame, length } => run_framed(rt, frame, task.mode, *length, input, out),
    }
}

fn run_alone(
    rt: HostRuntime,
    mut filter: Svf,
    mode: FilterMode,
    input: &[f32],
    out: &mut [f32],
) -> io::Result<()> {
    let before = rt.process_cpu_time();
    filter.process_buffer(input, out, mode);
    let after = rt.process_cpu_time();
    answer(
        rt,
        nanoseconds(before, after),
        &Filter::Svf(filter).fields(),
        out,
    )
}

fn run_framed(
    rt: HostRuntime,
    frame: &mut Frame,
    mode: FilterMode,
    length: NonZeroUsize,
    input: &[f32],
    out: &mut [f32],
) -> io::Result<()> {
    let _ = frame.load(0, 0);
    let _ = frame.tell(1, 256);
    let before = rt.process_cpu_time();
    run_all(frame, mode, length, input, out);
    let after = rt.process_cpu_time();
    // It takes nothing, and ends nothing: it keeps the compiler from leaving the save out, as the turn does with the rota.
    let _ = frame.take(&mut []);
    let _ = frame.turn();
    answer(rt, nanoseconds(before, after), &fields(frame), out)
}

fn run_all(
    frame: &mut Frame,
    mode: FilterMode,
    length: NonZeroUsize,
    input: &[f32],
    out: &mut [f32],
) {
    let length = length.get();
    for (lent, part) in input.chunks(length).zip(out.chunks_mut(length)) {
        let _ = frame.run(0, RunForm::Plain(mode), lent, part);
    }
}

// What has passed, as far as a word holds it; 0 where the clock cannot be read.
fn nanoseconds(before: io::Result<Duration>, after: io::Result<Duration>) -> u32 {
    let (Ok(before), Ok(after)) = (before, after) else {
        return 0;
    };
    u32::try_from(after.saturating_sub(before).as_nanos()).unwrap_or(u32::MAX)
}

fn answer(rt: HostRuntime, time: u32, numbers: &[f32; 8], out: &[f32]) -> io::Result<()> {
    let mut text = ArrayVec::<u8, ANSWER>::new();
    text.write_all(&time.to_le_bytes())?;
    put_words(&mut text, numbers)?;
    put_words(&mut text, out)?;
    rt.stdout().write_all(text.as_slice())
}

fn fields(frame: &Frame) -> [f32; 8] {
    let Ok(head) = frame.show(0) else {
        return [0.0; 8];
    };
    head.now.filter.map_or([0.0; 8], |filter| filter.fields())
}

fn put_words(text: &mut ArrayVec<u8, ANSWER>, from: &[f32]) -> io::Result<()> {
    for &x in from {
        text.write_all(&words::f32_to_word(x).to_le_bytes())?;
    }
    Ok(())
}
