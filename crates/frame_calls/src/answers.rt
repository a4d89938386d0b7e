// A line is read, its call made, and its answer put into the output.

use crate::faults;
use crate::text::{
    Output, put_bad_line, put_counted, put_head, put_keyword, put_number, put_part, put_routine,
    put_run, put_turn, put_two, put_written,
};
use arrayvec::ArrayVec;
use call_text::{BadLine, Call};
use digits::Unit;
use frame::Frame;
use runs::RunForm;
use sheets::Edition;

// ---- the buffers of a call

// What a buffer holds at most.
const BYTES: usize = 4096;

const SAMPLES: usize = 1024;

fn units_of<T: Unit + Default, const N: usize>(field: &[u8]) -> ArrayVec<T, N> {
    let mut units = ArrayVec::new();
    digits::units(field, &mut units);
    units
}

// ---- the calls that lend one to write to

fn run(
    frame: &mut Frame,
    head: usize,
    form: RunForm,
    input: &[u8],
    output: &[u8],
    out: &mut Output,
) {
    let input = units_of::<f32, SAMPLES>(input);
    let mut output = units_of::<f32, SAMPLES>(output);
    let answer = frame.run(head, form, input.as_slice(), output.as_mut_slice());
    put_run(out, answer, output.as_slice());
}

fn run_two(
    frame: &mut Frame,
    head: usize,
    form: RunForm,
    input: &[u8],
    outputs: (&[u8], &[u8]),
    out: &mut Output,
) {
    let input = units_of::<f32, SAMPLES>(input);
    let mut first = units_of::<f32, SAMPLES>(outputs.0);
    let mut second = units_of::<f32, SAMPLES>(outputs.1);
    let answer = frame.run_two(
        head,
        form,
        input.as_slice(),
        first.as_mut_slice(),
        second.as_mut_slice(),
    );
    put_two(out, answer, first.as_slice(), second.as_slice());
}

fn write(frame: &Frame, output: &[u8], out: &mut Output) {
    let mut output = units_of::<u8, BYTES>(output);
    let answer = frame.write(output.as_mut_slice());
    put_written(out, answer, output.as_slice());
}

fn take(frame: &mut Frame, output: &[u8], out: &mut Output) {
    let mut output = units_of::<u8, BYTES>(output);
    let answer = frame.take(output.as_mut_slice());
    put_written(out, answer, output.as_slice());
}

fn save(frame: &Frame, output: &[u8], out: &mut Output) {
    let mut output = units_of::<u8, BYTES>(output);
    let answer = frame.save_heads(output.as_mut_slice());
    put_written(out, answer, output.as_slice());
}

fn convert(wanted: Edition, sheet: &[u8], output: &[u8], out: &mut Output) {
    let sheet = units_of::<u8, BYTES>(sheet);
    let mut output = units_of::<u8, BYTES>(output);
    let answer = conversion::convert(wanted, sheet.as_slice(), output.as_mut_slice());
    put_written(out, answer, output.as_slice());
}

fn planes(samples: &[u8], output: &[u8], out: &mut Output) {
    let samples = units_of::<u8, BYTES>(samples);
    let mut output = units_of::<u8, BYTES>(output);
    let answer = planes::samples_to_planes(samples.as_slice(), output.as_mut_slice());
    put_written(out, answer, output.as_slice());
}

fn samples(planes: &[u8], output: &[u8], out: &mut Output) {
    let planes = units_of::<u8, BYTES>(planes);
    let mut output = units_of::<u8, BYTES>(output);
    let answer = planes::planes_to_samples(planes.as_slice(), output.as_mut_slice());
    put_written(out, answer, output.as_slice());
}

// ---- the calls over a sheet, which touch no frame. No plainer as one, which would be told what is asked and how the answer is put.

fn check(sheet: &[u8], entry: usize, out: &mut Output) {
    put_number(
        out,
        sheets::check_entry(units_of::<u8, BYTES>(sheet).as_slice(), entry),
    );
}

fn lookup(sheet: &[u8], entry: usize, out: &mut Output) {
    put_part(
        out,
        sheets::part_of(units_of::<u8, BYTES>(sheet).as_slice(), entry),
    );
}

fn check_edition_one(sheet: &[u8], entry: usize, out: &mut Output) {
    let sheet = units_of::<u8, BYTES>(sheet);
    put_number(
        out,
        sheets::check_entry_edition_one(sheet.as_slice(), entry),
    );
}

fn lookup_edition_one(sheet: &[u8], entry: usize, out: &mut Output) {
    let sheet = units_of::<u8, BYTES>(sheet);
    put_part(out, sheets::part_of_edition_one(sheet.as_slice(), entry));
}

fn of_call(call: Call<&[u8]>, frame: &mut Frame, out: &mut Output) {
    match call {
        Call::Open(sheet) => put_number(out, frame.open(units_of::<u8, BYTES>(sheet).as_slice())),
        Call::Load { head, entry } => put_number(out, frame.load(head, entry)),
        Call::Run {
            head,
            form,
            input,
            output,
        } => run(frame, head, form, input, output, out),
        Call::Two {
            head,
            form,
            input,
            first,
            second,
        } => run_two(frame, head, form, input, (first, second), out),
        Call::Rest(head) => put_number(out, frame.rest(head)),
        Call::Mark(head) => put_counted(out, frame.mark(head)),
        Call::Back { head, mark } => put_number(out, frame.back(head, mark)),
        Call::Drop { head, mark } => put_number(out, frame.drop(head, mark)),
        Call::Write(output) => write(frame, output, out),
        Call::Check { sheet, entry } => check(sheet, entry, out),
        Call::Lookup { sheet, entry } => lookup(sheet, entry, out),
        Call::Head(head) => put_head(out, frame.show(head)),
        Call::Check1 { sheet, entry } => check_edition_one(sheet, entry, out),
        Call::Lookup1 { sheet, entry } => lookup_edition_one(sheet, entry, out),
        Call::Convert {
            wanted,
            sheet,
            output,
        } => convert(wanted, sheet, output, out),
        Call::Count(head) => put_counted(out, frame.count(head).map(|n| n as usize)),
        Call::Begin => put_number(out, frame.begin()),
        Call::Take(output) => take(frame, output, out),
        Call::Tell { head, samples } => put_number(out, frame.tell(head, samples)),
        Call::Turn => put_turn(out, frame.turn()),
        Call::Save(output) => save(frame, output, out),
        Call::Restore(bytes) => put_number(
            out,
            frame.restore_heads(units_of::<u8, BYTES>(bytes).as_slice()),
        ),
        Call::Planes { samples, output } => planes(samples, output, out),
        Call::Samples { planes, output } => samples(planes, output, out),
        Call::Trial(place) => put_routine(out, trials::routine_at(place)),
    }
}

fn bad_line(rt: HostRuntime, lines: usize, line: &[u8], why: BadLine, out: &mut Output) {
    faults::bad_line(rt, lines, line, why);
    put_bad_line(out);
}

// `lines` is the line's number. No plainer with the runtime and the output in a struct: the runtime is copied and only the
// output changes, and nearly every function here takes the output alone.
pub(crate) fn answer(
    rt: HostRuntime,
    frame: &mut Frame,
    lines: usize,
    line: &[u8],
    out: &mut Output,
) {
    match call_text::call_of(line) {
        Ok(None) => {}
        Err(why) => bad_line(rt, lines, line, why, out),
        Ok(Some(call)) => {
            put_keyword(out, line);
            of_call(call, frame, out);
        }
    }
}
