// The reading loop: lines out of what each read brings, and an unfinished line held until the next.

use crate::answers::answer;
use crate::faults;
use crate::output::{flush, flush_if_enough};
use crate::text::{Output, put_long_line};
use frame::Frame;
use std::io;

// A line may have so many bytes.
const LONGEST: usize = 65535;

// What is read: a line of the greatest length and its line feed. A read brings as much as there is room for, and no copy is made of it.
pub(crate) type Buffer = [u8; LONGEST + 1];

// What goes from one read to the next: the frame, how many lines there were, how many bytes of an unfinished line stand at the start of the
// buffer, and whether the rest of a long line is still to be passed over. A vector in place of the buffer and `held` would take a read through
// a buffer of its own, and so in parts, between which answers are written.
#[derive(Drop)]
struct Session {
    frame: Frame,
    lines: usize,
    held: usize,
    skipping: bool,
}

// Where the lines begin: past the rest of a long line, if there is one. None where that line goes on behind the text.
fn lines_begin(text: &[u8], skipping: bool) -> Option<usize> {
    if !skipping {
        return Some(0);
    }
    Some(scan::find(text, 0, b'\n')? + 1)
}

// Reads once behind what is held, and answers how many bytes there are then.
fn fill(rt: HostRuntime, buffer: &mut [u8], held: usize) -> io::Result<usize> {
    if buffer.len() <= held {
        return Ok(held);
    }
    let n = streams::read(&mut rt.stdin(), &rt, &mut buffer[held..])?;
    Ok(held + n)
}

// Moves the bytes from `from` up to `end` to the buffer's start, and answers how many they are.
fn keep(buffer: &mut [u8], from: usize, end: usize) -> usize {
    if end < from || buffer.len() < end {
        return 0;
    }
    buffer.copy_within(from..end, 0);
    end - from
}

// Each step answers None where nothing more is to be read: the input has ended or failed, or the output takes no more.
// No plainer with the runtime and the output in a struct: the runtime is copied and only the output changes, and nearly every function
// here would still name both.
impl Session {
    // The count of lines stays at the greatest number, if a run should ever come there.
    fn next_line(&mut self) -> usize {
        self.lines = self.lines.saturating_add(1);
        self.lines
    }

    // Answers every whole line of the text from the place `start` on, and answers where the rest begins.
    fn take_lines(
        &mut self,
        rt: HostRuntime,
        start: usize,
        text: &[u8],
        out: &mut Output,
    ) -> Option<usize> {
        let mut from = start;
        while let Some(end) = scan::find(text, from, b'\n') {
            let line = &text[from..end];
            from = end + 1;
            let lines = self.next_line();
            answer(rt, &mut self.frame, lines, line, out);
            flush_if_enough(rt, out)?;
        }
        flush(rt, out)?;
        Some(from)
    }

    // The input has ended. The last line may lack its line feed.
    fn last(&mut self, rt: HostRuntime, buffer: &[u8], out: &mut Output) -> Option<()> {
        let n = streams::within(self.held, buffer);
        let lines = self.next_line();
        answer(rt, &mut self.frame, lines, &buffer[..n], out);
        flush(rt, out)?;
        None
    }

    // Holds a line that has not ended. One that is too long already is passed over with its rest.
    fn hold(&mut self, rt: HostRuntime, held: usize, out: &mut Output) -> Option<()> {
        if held <= LONGEST {
            self.held = held;
            return Some(());
        }
        self.held = 0;
        self.skipping = true;
        let lines = self.next_line();
        faults::long_line(rt, lines);
        put_long_line(out);
        flush(rt, out)
    }

    // Answers the lines that are whole of the buffer's first bytes, up to `end`, and holds the rest.
    fn take(
        &mut self,
        rt: HostRuntime,
        end: usize,
        buffer: &mut [u8],
        out: &mut Output,
    ) -> Option<()> {
        let n = streams::within(end, buffer);
        let start = lines_begin(&buffer[..n], self.skipping);
        self.skipping = start.is_none();
        let from = self.take_lines(rt, start.unwrap_or(n), &buffer[..n], out)?;
        self.hold(rt, keep(buffer, from, n), out)
    }

    // Reads once, and answers what there is then. A line that a failed read cuts off gets no answer.
    fn step(&mut self, rt: HostRuntime, buffer: &mut [u8], out: &mut Output) -> Option<()> {
        match fill(rt, buffer, self.held) {
            Ok(end) if end == self.held => self.last(rt, buffer, out),
            Ok(end) => self.take(rt, end, buffer, out),
            Err(error) => {
                let _ = eprintln!(rt; "frame_calls: cannot read the calls: {error}");
                None
            }
        }
    }
}

// A proved loop has to end, and nothing says that the input does. So the loop has a number of turns that no run uses up.
pub(crate) fn serve(rt: HostRuntime, buffer: &mut Buffer, out: &mut Output) {
    let mut session = Session {
        frame: Frame::fresh(),
        lines: 0,
        held: 0,
        skipping: false,
    };
    for _ in 0..u64::MAX {
        if session.step(rt, buffer, out).is_none() {
            return;
        }
    }
}
