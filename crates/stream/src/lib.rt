// The lines of an input, answered one after the other: how far that came.
#![tactic(auto)]

ghost use Rattle.std.specs.Prelude.{◌≡◌, ℕ, ◌-◌, false, List, [], length};
ghost use Rattle.ascii.specs.Output.{PutsUpTo};
ghost use Rattle.stream.specs.Lines.{lines_of};
ghost use Rattle.stream.specs.Stream.{Answering, answered, LinesAnswered};

use ascii::output::Output;
use ascii::parts::split_once;

// How much of an input was used, and how much of an output written.
#[derive(Clone, Copy, Debug, PartialEq, Eq)]
pub struct Step {
    pub used: usize,
    pub written: usize,
}

// What answers lines, each by a state that it may change.
pub trait Responder {
    ghost State: { Type 0 };

    ghost state: { Self → State };

    ghost answering: { Answering State };

    // The names of what it was lent to change, so that a lender learns what became of that.
    ghost lent: { Self → List ℕ } = { λ _. [] };

    // No line is answered by more bytes.
    fn most() -> usize
        ensures { result ≡ answering.most };

    // Puts the answer to a line where `; ` stands between lines: one line or none.
    fn respond(&mut self, line: &[u8], out: &mut Output)
        ensures puts { out.old.lines ≡ false → PutsUpTo answering.most out.old out.new (answering.prints (state self.old) line.now) }
        ensures next { state self.new ≡ answering.next (state self.old) line.now }
        ensures same_lent { lent self.new ≡ lent self.old };
}

// Answers the complete lines of an input, as long as the output has room for the longest answer. A caller goes on with what is left of the input.
pub fn respond_to_lines<R: Responder>(responder: &mut R, input: &[u8], bytes: &mut [u8]) -> Step
    ensures same_lent { R.lent responder.new ≡ R.lent responder.old }
    ensures answers { LinesAnswered R.answering (R.state responder.old) (answered R.answering (length bytes.old) (R.state responder.old) (lines_of input.now)) bytes.old bytes.new (R.state responder.new) result }
{
    let mut out = Output::new(bytes, false);
    let mut rest = input;
    while R::most() <= out.bytes.len() - out.at {
        let Some((line, behind)) = split_once(rest, b'\n') else {
            break;
        };
        responder.respond(line, &mut out);
        rest = behind;
    }
    Step {
        used: input.len() - rest.len(),
        written: out.at,
    }
}
