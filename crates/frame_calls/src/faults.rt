// What is wrong with a line, for people: a line on standard error, by one write, so that nothing tears it. That it cannot be written
// changes nothing.

use arrayvec::ArrayVec;
use call_text::BadLine;
use std::io::Write;

type Fault = ArrayVec<u8, 160>;

// No plainer as a Display of the reason: what is said depends on the line too.
fn why(line: &[u8], why: BadLine) -> &'static str {
    if line.last() == Some(&b'\r') {
        return "it ends in a carriage return (a file from Windows?): take them out with tr -d '\\r'";
    }
    match why {
        BadLine::NoCall => "its first word is no call: docs/REFERENCE.md lists the calls",
        BadLine::Words => {
            "the words behind the call do not fit it: docs/REFERENCE.md says what it takes"
        }
    }
}

fn say(rt: HostRuntime, lines: usize, what: &str) {
    let mut text = Fault::new();
    // The longest has less than 160 bytes.
    let _ = writeln!(text, "frame_calls: line {lines}: {what}");
    let _ = rt.stderr().write(text.as_slice());
}

pub(crate) fn bad_line(rt: HostRuntime, lines: usize, line: &[u8], reason: BadLine) {
    say(rt, lines, why(line, reason));
}

pub(crate) fn long_line(rt: HostRuntime, lines: usize) {
    say(
        rt,
        lines,
        "it has more than 65,535 bytes, and is passed over",
    );
}
