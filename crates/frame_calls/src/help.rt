// What the program says of itself, to whoever starts it with an argument.

pub(crate) fn print(rt: HostRuntime) {
    let text: &[u8] =
        b"frame_calls reads calls of the frame from standard input, one to a line,\nand writes one answer line for each to standard output.\n\n    tools/frame jobs/thread_break.txt\n\nruns a job. docs/REFERENCE.md describes the calls, the answers and the numbers in\nthem. What is wrong with a line, by its number, and what fails is said on\nstandard error.\n";
    let _ = crate::output::send(rt, text);
}
