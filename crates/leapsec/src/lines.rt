// The lines of standard input: questions, one a line, or a trace that is replayed. Each read is followed by the answers to all lines that are
// then complete, so one who asks and waits is answered.
ghost use Rattle.std.specs.Prelude.{◌≡◌, ◌-◌, ◌≤◌, length, IfSome};

use crate::output::print_answer;
use shell::output::{say, within, write};
use std::io::Read;
use stream::Step;

// A line that is longer than 8,192 bytes is no question, whatever it has behind them, and one that is longer than 4,096 is no line of a trace. So
// of a line that is not complete no more than 8,193 bytes are held; for a trace 4,097 would do.
const MOST_HELD: usize = command::MAX_LINE + 1;

// What answers the lines of an input.
pub(crate) trait Answers {
    // Answers the complete lines at the start of an input, as long as an output has room.
    fn answer(&mut self, input: &[u8], out: &mut [u8]) -> Step;

    // Writes the answer to a last line that has no LF.
    fn end(&self, rt: &HostRuntime, line: &[u8]);
}

// Questions, one a line.
#[derive(Drop)]
pub(crate) struct Questions;

impl Answers for Questions {
    fn answer(&mut self, input: &[u8], out: &mut [u8]) -> Step {
        command::answer_lines(input, out)
    }

    fn end(&self, rt: &HostRuntime, line: &[u8]) {
        print_answer(rt, line, false);
    }
}

// A trace: the list in use and the stored one, both blank at its start.
#[derive(Drop)]
pub(crate) struct Trace {
    current: [u32; 514],
    stored: [u32; 514],
}

impl Trace {
    pub(crate) fn new() -> Trace {
        Trace {
            current: [0; 514],
            stored: [0; 514],
        }
    }
}

impl Answers for Trace {
    fn answer(&mut self, input: &[u8], out: &mut [u8]) -> Step {
        replay::replay(&mut self.current, &mut self.stored, input, out)
    }

    fn end(&self, rt: &HostRuntime, line: &[u8]) {
        let mut out = [0u8; replay::MAX_PRINTED];
        if let Ok(count) = replay::replay_end(line, &mut out) {
            write(rt, &out[..within(count, &out)]);
        }
    }
}

// What is read and not answered yet: the bytes of a buffer between two places.
#[derive(Drop)]
struct Input<'a> {
    buffer: &'a mut [u8],
    from: usize,
    to: usize,
    ghost inside: { (from ≤ to) × (to ≤ length buffer.now) },
}

impl<'a> Input<'a> {
    fn bytes(&self) -> &[u8]
        ensures { length result.now ≡ self.now.to - self.now.from }
    {
        &self.buffer[self.from..self.to]
    }

    // A number of its bytes are answered.
    fn pass(&mut self, count: usize)
        requires { count ≤ self.old.to - self.old.from }
    {
        self.from += count;
    }

    // Moves the start of a line that is not complete to the start of the buffer.
    fn hold(&mut self) {
        let held = (self.to - self.from).min(MOST_HELD);
        let from = self.from;
        self.buffer.copy_within(from..from + held, 0);
        self.from = 0;
        self.to = held;
    }

    // Reads once behind what is held, and says whether anything came. Where reading fails, that is said, and nothing is left: the rest of what is
    // held is not known.
    fn read(&mut self, rt: &HostRuntime) -> bool {
        self.hold();
        let to = self.to;
        match rt.stdin().read(&mut self.buffer[to..]) {
            Ok(count) => {
                self.to = to + count;
                0 < count
            }
            Err(error) => {
                say(rt, "standard input", error);
                self.from = 0;
                self.to = 0;
                false
            }
        }
    }
}

// Writes the answers to complete lines at the start of an input, as many as a buffer has room for, and says how many bytes they were; none if the
// answers could not be written. No bytes are used where no line is complete.
fn answer_some<A: Answers>(rt: &HostRuntime, answers: &mut A, input: &[u8]) -> Option<usize>
    ensures { IfSome result (λ used. used ≤ length input.now) }
{
    let mut out = io::large_buffer();
    let step = answers.answer(input, &mut out);
    if write(rt, &out[..within(step.written, &out)]) {
        Some(within(step.used, input))
    } else {
        None
    }
}

// Answers the lines of standard input to its end. A proved loop has to end, and nothing says that an input does: so the turns are counted, up to a
// number that no run comes to.
// It is compiled by itself, so that its buffer takes no stack where a single question is answered.
#[inline(never)]
pub(crate) fn answer<A: Answers + Drop>(rt: &HostRuntime, mut answers: A) {
    let mut buffer = io::large_buffer();
    let mut input = Input {
        buffer: &mut buffer,
        from: 0,
        to: 0,
    };
    for _ in 0..u64::MAX {
        let Some(used) = answer_some(rt, &mut answers, input.bytes()) else {
            return;
        };
        if 0 < used {
            input.pass(used);
        } else if !input.read(rt) {
            let line = input.bytes();
            if !line.is_empty() {
                answers.end(rt, line);
            }
            return;
        }
    }
}
