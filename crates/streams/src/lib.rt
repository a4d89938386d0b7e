// Reading and writing by a stream that may not be ready: a call that would block, or that a signal broke off, is made again. Any other
// failure is handed to the caller, with what the system says of it.
// The loops have a number of turns that no run uses up, since nothing says that a stream is ever ready.
#![tactic(auto)]

ghost use Rattle.std.specs.Prelude.{◌≡◌, ◌<◌, ◌≤◌, min, IfOk, IfErr, length};
ghost use Rattle.std.specs.Io.KnownBytes.{ReadConsumes, WriteAppends};
ghost use Rattle.io.specs.Counts.{IsPrefixLen};
ghost use Rattle.streams.specs.Whole.{WritesFront};

use std::io::{Error, ErrorKind, Read, Write};
use std::time::{Clock, Duration};
use std::{io, thread};

// Why not all bytes were written, and how many were.
#[derive(Clone, Copy)]
pub struct Unwritten {
    pub count: usize,
    pub error: Error,
}

// n, or buf's length where that is less.
pub fn within(n: usize, buf: &[u8]) -> usize
    ensures prefix_len { IsPrefixLen result buf.now }
    ensures value { result ≡ min n (length buf.now) }
{
    n.min(buf.len())
}

// Waits for a millisecond: a loop that only tries again would take a whole processor.
fn pause<C: Clock>(clock: &C) {
    thread::sleep(clock, Duration::from_millis(1));
}

// Whether the call that has failed is to be made again, after a pause where it would have blocked.
fn again<C: Clock>(clock: &C, error: Error) -> bool {
    let kind = error.kind();
    if kind == ErrorKind::WouldBlock {
        pause(clock);
        return true;
    }
    kind == ErrorKind::Interrupted
}

// Reads once, but waits until there is something to read, the input ends or the read fails. What it read stands at the buffer's start.
pub fn read<R: Read, C: Clock>(from: &mut R, clock: &C, buf: &mut [u8]) -> io::Result<usize>
    ensures count_in_bounds { IfOk result (λ n. n ≤ length buf.old) }
    ensures bytes { ReadConsumes (R.remaining from.old) (R.remaining from.new) result buf.new }
{
    'reads: for _ in 0..u64::MAX {
        match from.read(buf) {
            Ok(n) => return Ok(n),
            Err(error) => {
                if !again(clock, error) {
                    return Err(error);
                }
            }
        }
    }
    from.read(buf)
}

// Writes once: how many bytes were written, none where the call is to be made again. A write that takes nothing has failed.
fn write_once<W: Write, C: Clock>(to: &mut W, clock: &C, buf: &[u8]) -> io::Result<usize>
    ensures count_in_bounds { IfOk result (λ n. n ≤ length buf.now) }
    ensures bytes { WriteAppends (W.contents to.old) (W.contents to.new) result buf.now }
{
    match to.write(buf) {
        Ok(0) => Err(Error::from(ErrorKind::WriteZero)),
        Ok(n) => Ok(n),
        Err(error) => {
            if again(clock, error) {
                return Ok(0);
            }
            Err(error)
        }
    }
}

// Writes all of buf, whose length it answers, unless a write fails or the turns are used up.
pub fn write<W: Write, C: Clock>(to: &mut W, clock: &C, buf: &[u8]) -> Result<usize, Unwritten>
    ensures whole { IfOk result (λ n. n ≡ length buf.now) }
    ensures count_in_bounds { IfErr result (λ e. e.count < length buf.now) }
    ensures bytes { WritesFront (W.contents to.old) (W.contents to.new) result buf.now }
{
    let mut count = 0usize;
    for _ in 0..u64::MAX {
        if count == buf.len() {
            return Ok(count);
        }
        match write_once(to, clock, &buf[count..]) {
            Ok(n) => count += n,
            Err(error) => return Err(Unwritten { count, error }),
        }
    }
    if count == buf.len() {
        return Ok(count);
    }
    Err(Unwritten {
        count,
        error: Error::from(ErrorKind::TimedOut),
    })
}
