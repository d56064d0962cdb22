// Standard output, and what is said on standard error.
ghost use Rattle.io.specs.Counts.{IsPrefixLen};

use std::fmt::InlineText;
use std::io;

// A number of bytes, but no more than there are.
pub fn within(n: usize, bytes: &[u8]) -> usize
    ensures { IsPrefixLen result bytes.now }
{
    n.min(bytes.len())
}

// A system's message without its number.
fn without_number(message: &str) -> &str {
    match message.split_once(" (os error ") {
        Some((words, _)) => words,
        None => message,
    }
}

// Says on standard error what failed, and the system's word for why.
pub fn say(rt: &HostRuntime, what: &str, error: io::Error) {
    let message = InlineText::<256>::of(error);
    let why = without_number(message.as_str());
    let _ = eprintln!(rt; "leapsec: {what}: {why}");
}

// Writes bytes, or says that it can't and answers false. Where nobody reads any more it says nothing.
pub fn write(rt: &HostRuntime, bytes: &[u8]) -> bool {
    match rt.write_all(bytes) {
        Ok(()) => true,
        Err(error) => {
            if error.kind() != io::ErrorKind::BrokenPipe {
                say(rt, "standard output", error);
            }
            false
        }
    }
}
