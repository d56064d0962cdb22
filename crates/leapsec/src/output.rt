// Standard output.
use ascii::output::Output;
use shell::output::{within, write};

// Writes the answer to a line, and an LF. The lines of an answer have LF between them, or `; ` unless `lines` is true.
pub(crate) fn print_answer(rt: &HostRuntime, line: &[u8], lines: bool) {
    let mut bytes = io::large_buffer();
    let end = command::answer(line, lines, &mut bytes);
    let mut out = Output {
        bytes: &mut bytes,
        at: end,
        lines,
    };
    out.put(b'\n');
    let n = out.at;
    write(rt, &bytes[..within(n, &bytes)]);
}
