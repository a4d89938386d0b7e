// The answers on their way out.

use crate::text::Output;

// Answers are written once they take so many bytes.
const ENOUGH: usize = 8192;

// Writes a text, or says why that cannot be done. None where the output takes no more.
pub(crate) fn send(rt: HostRuntime, text: &[u8]) -> Option<()> {
    match streams::write(&mut rt.stdout(), &rt, text) {
        Ok(_) => Some(()),
        Err(unwritten) => {
            let error = unwritten.error;
            let _ = eprintln!(rt; "frame_calls: cannot write the answers: {error}");
            None
        }
    }
}

// Writes the answers that wait.
pub(crate) fn flush(rt: HostRuntime, out: &mut Output) -> Option<()> {
    send(rt, out.as_slice())?;
    out.clear();
    Some(())
}

pub(crate) fn flush_if_enough(rt: HostRuntime, out: &mut Output) -> Option<()> {
    if out.len() < ENOUGH {
        Some(())
    } else {
        flush(rt, out)
    }
}
