// The arguments of the program as a line.
ghost use Rattle.std.specs.Prelude.{◌≡◌, ◌≤◌, length};
ghost use Rattle.io.specs.Counts.{IsPrefixLen};
ghost use Rattle.shell.specs.Line.{Fits};

use ascii::output::Output;
use std::rt::Env;

// Puts an argument behind the start of a line; where the line has no room for it, the whole of its bytes counts as the line.
fn put_argument(rt: &HostRuntime, line: &mut Output, i: usize)
    requires { line.old.at ≤ length line.old.bytes.now }
    ensures { Fits line.old line.new }
{
    let at = line.at;
    line.at = match rt.arg(i, &mut line.bytes[at..]) {
        Ok(n) => at + n,
        Err(_) => line.bytes.len(),
    };
}

// Puts the arguments from the first to before `count`, a space between them, and returns how long the line is.
pub fn put_arguments(rt: &HostRuntime, line: &mut [u8], count: usize) -> usize
    ensures { IsPrefixLen result line.new }
{
    let mut line = Output::new(line, true);
    put_argument(rt, &mut line, 1);
    for i in 2..count {
        line.put(b' ');
        put_argument(rt, &mut line, i);
    }
    line.at
}
