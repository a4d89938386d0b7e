// Runs heads to the greatest count, 4,294,967,295 samples, and tries what they do there: a text of calls that came so far would have 69 GB.
// One head goes by strides, which pass over most samples, the other by decimation, which filters every one of them.
// Each line says what was called and over how many samples, the number that was answered, the head's count then, and of a run the first place
// of each output, which is lent as 40e00000. Of the runs of every length with 100 samples left, two lines say how many of those that fit were
// answered 0, and how many of the others 18.
// The file `stdout` has what the source's Rust makes of the same calls (`tools/histories --limit`).

#![tactic(auto)]

use arrayvec::ArrayVec;
use filter_core::{FilterMode, Refusal, number_in};
use frame::Frame;
use runs::RunForm;
use std::io::{Stdout, Write};

// An Svf with g 1, r 1 and h 0.25, and a naive filter in Exact at 0.1 with a resonance of 0.5.
const SHEET: [u8; 28] = [
    2, 0, 4, 5, 0, 0, 0x80, 0x3f, 0, 0, 0x80, 0x3f, 0, 0, 0x80, 0x3e, 0xcd, 0xcc, 0xcc, 0x3d, 0, 0,
    0, 0x3f, 0, 0, 0, 0,
];

// 16,384 runs of so many samples are one sample more than a head counts.
const BLOCK: usize = 262144;

const BLOCKS: usize = 16383;

// So many of a block leave the head 100 samples short.
const LAST: usize = BLOCK - 101;

const HEAD: usize = 11;

// The forms that a type has: one for the way to the limit, with a step, without one, of two outputs, with a step of 0; and one that it has not.
#[derive(Clone, Copy)]
struct Forms {
    way: RunForm,
    stepped: RunForm,
    plain: RunForm,
    two: RunForm,
    no_step: RunForm,
    absent: RunForm,
}

fn main(rt: HostRuntime) {
    let mut input = [1.0f32; BLOCK];
    input[0] = -0.5;
    let mut trial = Trial {
        to: rt.stdout(),
        frame: Frame::fresh(),
    };
    let _ = trial.frame.open(&SHEET);
    let mut first = [7.0f32; BLOCK];
    let mut second = [7.0f32; BLOCK];
    trial.print(b"An Svf, by strides of a whole run.\n");
    trial.try_limit(
        0,
        Forms {
            way: RunForm::Stride(FilterMode::LowPass, BLOCK),
            stepped: RunForm::Stride(FilterMode::LowPass, 2),
            plain: RunForm::Plain(FilterMode::LowPass),
            two: RunForm::Pair(FilterMode::LowPass, FilterMode::HighPass),
            no_step: RunForm::Stride(FilterMode::LowPass, 0),
            absent: RunForm::Decimate(FilterMode::LowPass, 1),
        },
        &input,
        &mut first,
        &mut second,
    );
    trial.begin_anew();
    trial.print(b"A naive filter, by decimation.\n");
    trial.try_limit(
        1,
        Forms {
            way: RunForm::Decimate(FilterMode::LowPass, 2),
            stepped: RunForm::Decimate(FilterMode::LowPass, 3),
            plain: RunForm::Plain(FilterMode::LowPass),
            two: RunForm::Split,
            no_step: RunForm::Decimate(FilterMode::LowPass, 0),
            absent: RunForm::Stride(FilterMode::LowPass, 1),
        },
        &input,
        &mut first,
        &mut second,
    );
}

// ---- buffers

// The longest line has less.
type Line = ArrayVec<u8, 120>;

// The first place of an output, as a word.
fn first_of(output: &[f32]) -> u32 {
    words::f32_to_word(output.first().copied().unwrap_or(0.0))
}

fn lend(output: &mut [f32]) {
    if let Some(x) = output.first_mut() {
        *x = 7.0;
    }
}

fn front(n: usize, input: &[f32]) -> &[f32] {
    &input[..n.min(input.len())]
}

// A frame, one of whose heads is brought to the limit, and where what it does is said.
#[derive(Drop)]
struct Trial {
    to: Stdout,
    frame: Frame,
}

// How many of the runs of 0 to 200 samples, each from a mark that has 100 left, were refused with 18 where they have more, and how many of
// the others accepted.
#[derive(Clone, Copy, Default)]
struct Tried {
    refused: usize,
    accepted: usize,
}

impl Tried {
    // No more runs than 201 are tried.
    fn count(&mut self, m: usize, answer: Result<(), Refusal>) {
        if 100 < m && answer == Err(Refusal::Count) {
            self.refused = self.refused.saturating_add(1);
        }
        if m <= 100 && answer.is_ok() {
            self.accepted = self.accepted.saturating_add(1);
        }
    }
}

// No plainer with the input and the outputs as one: the calls take them as parameters, and two of them are lent to be changed.
impl Trial {
    // A line goes out by one write, so that nothing tears it.
    fn print(&mut self, line: &[u8]) {
        let _ = self.to.write_all(line);
    }

    // A fresh frame with the sheet open.
    fn begin_anew(&mut self) {
        self.frame = Frame::fresh();
        let _ = self.frame.open(&SHEET);
    }

    // ---- a line

    fn count(&self) -> u32 {
        self.frame.count(HEAD).unwrap_or(0)
    }

    // What is said of a call that is called `name`.
    fn say(&mut self, name: &str, n: usize, number: u8) {
        let count = self.count();
        let mut line = Line::new();
        let _ = writeln!(line, "{name}{n}: {number}, count {count}");
        self.print(line.as_slice());
    }

    // ---- calls, each with its line

    fn run(&mut self, name: &str, form: RunForm, n: usize, input: &[f32], output: &mut [f32]) {
        let lent = front(n, input);
        lend(output);
        let number = number_in(self.frame.run(HEAD, form, lent, output));
        let n = lent.len();
        let count = self.count();
        let x = first_of(output);
        let mut line = Line::new();
        let _ = writeln!(line, "{name}{n}: {number}, count {count}, output {x:08x}",);
        self.print(line.as_slice());
    }

    fn run_two(
        &mut self,
        form: RunForm,
        n: usize,
        input: &[f32],
        first: &mut [f32],
        second: &mut [f32],
    ) {
        let lent = front(n, input);
        lend(first);
        lend(second);
        let number = number_in(self.frame.run_two(HEAD, form, lent, first, second));
        let n = lent.len();
        let count = self.count();
        let x = first_of(first);
        let y = first_of(second);
        let mut line = Line::new();
        let _ = writeln!(
            line,
            "two outputs, samples {n}: {number}, count {count}, output {x:08x}, output {y:08x}",
        );
        self.print(line.as_slice());
    }

    fn mark(&mut self) {
        let answer = self.frame.mark(HEAD);
        self.say("mark ", answer.unwrap_or(0), number_in(answer));
    }

    fn back(&mut self, m: usize) {
        let answer = self.frame.back(HEAD, m);
        self.say("back to mark ", m, number_in(answer));
    }

    // ---- the way to the limit

    fn blocks(&mut self, form: RunForm, input: &[f32], output: &mut [f32]) {
        for _ in 0..BLOCKS {
            let _ = self.frame.run(HEAD, form, input, output);
        }
    }

    fn each_length(&mut self, form: RunForm, input: &[f32], output: &mut [f32]) {
        let mut tried = Tried::default();
        for n in 0..201 {
            let lent = front(n, input);
            tried.count(lent.len(), self.frame.run(HEAD, form, lent, output));
            let _ = self.frame.back(HEAD, 0);
        }
        self.say("up to 100 samples, accepted ", tried.accepted, 0);
        self.say(
            "above 100 samples, refused ",
            tried.refused,
            u8::from(Refusal::Count),
        );
    }

    // To one sample short of the limit, with a mark there, and one with 100 samples left.
    fn come_near(
        &mut self,
        entry: usize,
        forms: Forms,
        input: &[f32; BLOCK],
        output: &mut [f32; BLOCK],
    ) {
        let _ = self.frame.load(HEAD, entry);
        self.blocks(forms.way, input, output);
        self.run("stepped, samples ", forms.stepped, LAST, input, output);
        self.mark();
        self.each_length(forms.stepped, input, output);
        self.each_length(forms.plain, input, output);
        self.run("stepped, samples ", forms.stepped, 99, input, output);
        self.mark();
    }

    // A sample too many, in both calls; a step of 0 and another type's form come first.
    fn go_over(
        &mut self,
        forms: Forms,
        input: &[f32; BLOCK],
        first: &mut [f32; BLOCK],
        second: &mut [f32; BLOCK],
    ) {
        self.run("stepped, samples ", forms.stepped, 2, input, first);
        self.run_two(forms.two, 2, input, first, second);
        self.run("a step of 0, samples ", forms.no_step, 2, input, first);
        self.run(
            "another type's form, samples ",
            forms.absent,
            2,
            input,
            first,
        );
    }

    // The last sample, one more, and none.
    fn reach(&mut self, stepped: RunForm, input: &[f32; BLOCK], output: &mut [f32; BLOCK]) {
        for n in [1, 1, 0] {
            self.run("stepped, samples ", stepped, n, input, output);
        }
    }

    // The last sample from the mark again: in two outputs, which count once, and in one.
    fn reach_again(
        &mut self,
        forms: Forms,
        input: &[f32; BLOCK],
        first: &mut [f32; BLOCK],
        second: &mut [f32; BLOCK],
    ) {
        self.back(1);
        self.run_two(forms.two, 1, input, first, second);
        self.back(1);
        self.run("stepped, samples ", forms.stepped, 1, input, first);
    }

    fn rest_and_load(&mut self, entry: usize) {
        let rested = self.frame.rest(HEAD);
        self.say("rest of head ", HEAD, number_in(rested));
        let loaded = self.frame.load(HEAD, entry);
        self.say("load of entry ", entry, number_in(loaded));
    }

    fn try_limit(
        &mut self,
        entry: usize,
        forms: Forms,
        input: &[f32; BLOCK],
        first: &mut [f32; BLOCK],
        second: &mut [f32; BLOCK],
    ) {
        self.come_near(entry, forms, input, first);
        self.go_over(forms, input, first, second);
        self.reach(forms.stepped, input, first);
        self.reach_again(forms, input, first, second);
        self.rest_and_load(entry);
    }
}
