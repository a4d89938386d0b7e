// The text of an answer: the line's keyword, which is put before the call is made, then the refusal's number and what the call hands back.

use arrayvec::ArrayVec;
use digits::{Unit, put};
use filter_core::{Refusal, number_in};
use form_text::Fields;
use heads::Head;
use rota::Grant;
use std::io::Write;
use trials::TrialCall;

// The answers that wait and one more, the longest of which takes less than 32,768 bytes: so no writing to it fails.
pub(crate) type Output = ArrayVec<u8, 40960>;

fn keyword(line: &[u8]) -> &[u8] {
    Fields::of(line, b' ').next().unwrap_or(line)
}

// A space and the refusal's number, 0 where the call is accepted.
fn put_refusal<T: Copy>(out: &mut Output, answer: Result<T, Refusal>) {
    let number = number_in(answer);
    let _ = write!(out, " {number}");
}

// The same, and what an accepted call hands back.
fn put_answer(out: &mut Output, answer: Result<usize, Refusal>) {
    put_refusal(out, answer);
    if let Ok(n) = answer {
        let _ = write!(out, " {n}");
    }
}

// A space and the bytes or samples.
fn put_spaced<T: Unit>(out: &mut Output, units: &[T]) {
    put(out, b" ");
    digits::put_units(out, units);
}

pub(crate) fn put_keyword(out: &mut Output, line: &[u8]) {
    put(out, keyword(line));
}

pub(crate) fn put_bad_line(out: &mut Output) {
    put(out, b"? bad line\n");
}

pub(crate) fn put_long_line(out: &mut Output) {
    put(out, b"? long line\n");
}

// An answer that is nothing but the number.
pub(crate) fn put_number(out: &mut Output, answer: Result<(), Refusal>) {
    put_refusal(out, answer);
    put(out, b"\n");
}

// An answer that has a number of its own behind that of the refusal: a mark's, or a count.
pub(crate) fn put_counted(out: &mut Output, answer: Result<usize, Refusal>) {
    put_answer(out, answer);
    put(out, b"\n");
}

pub(crate) fn put_head(out: &mut Output, answer: Result<&Head, Refusal>) {
    put_refusal(out, answer);
    if let Ok(head) = answer {
        crate::shown::put_head(out, head);
    }
    put(out, b"\n");
}

// The head whose turn it is and what it is granted; `none` where no head waits. A turn is never refused, so it has no number.
pub(crate) fn put_turn(out: &mut Output, grant: Option<Grant>) {
    match grant {
        Some(Grant { head, samples }) => {
            let _ = write!(out, " {head} {samples}");
        }
        None => put(out, b" none"),
    }
    put(out, b"\n");
}

fn trial_word(call: TrialCall) -> &'static [u8] {
    match call {
        TrialCall::Load => b"load",
        TrialCall::Mark => b"mark",
        TrialCall::Back => b"back",
        TrialCall::Drop => b"drop",
        TrialCall::Rest => b"rest",
    }
}

// The calls with commas between; `-` for none, as for a buffer of none.
fn put_trial_calls(out: &mut Output, calls: &[TrialCall]) {
    let [first, rest @ ..] = calls else {
        put(out, b"-");
        return;
    };
    put(out, trial_word(*first));
    for call in rest {
        put(out, b",");
        put(out, trial_word(*call));
    }
}

// A trial routine; `end` where its place is past the end. Neither is a refusal, so it has no number.
pub(crate) fn put_routine(out: &mut Output, routine: Option<ArrayVec<TrialCall, 5>>) {
    put(out, b" ");
    match routine {
        Some(calls) => put_trial_calls(out, calls.as_slice()),
        None => put(out, b"end"),
    }
    put(out, b"\n");
}

pub(crate) fn put_written(out: &mut Output, answer: Result<usize, Refusal>, bytes: &[u8]) {
    put_answer(out, answer);
    put_spaced(out, bytes);
    put(out, b"\n");
}

// The part of a sheet that a lookup hands out, none where it is refused.
pub(crate) fn put_part(out: &mut Output, part: &[u8]) {
    put_spaced(out, part);
    put(out, b"\n");
}

pub(crate) fn put_run(out: &mut Output, answer: Result<(), Refusal>, output: &[f32]) {
    put_refusal(out, answer);
    put_spaced(out, output);
    put(out, b"\n");
}

pub(crate) fn put_two(
    out: &mut Output,
    answer: Result<(), Refusal>,
    first: &[f32],
    second: &[f32],
) {
    put_refusal(out, answer);
    put_spaced(out, first);
    put_spaced(out, second);
    put(out, b"\n");
}
