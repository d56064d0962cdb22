// Question lines and their answers. Any bytes may be given as a line; what is no question is answered by what was expected.
#![tactic(auto)]

ghost use Rattle.std.specs.Prelude.{length};
ghost use Rattle.ascii.specs.Output.{PutsUpTo};
ghost use Rattle.command.specs.Answer.{max_answer, of_list, of_pair, answer_to, Answered};
ghost use Rattle.command.specs.Private.{reply_to};
ghost use Rattle.stream.specs.Lines.{lines_of};
ghost use Rattle.stream.specs.Stream.{answered, LinesAnswered};
ghost use Rattle.command.specs.Lines.{asking};

mod hex; // hex.rt: fields that are hex
mod lists; // lists.rt: a list as its stretches, and a nybble list as text
mod question; // question.rt: the question that a line is

use crate::question::Question;
use answers::lists::put_list_nybbles;
use answers::pairs::{put_comparison, put_longer};
use answers::times::put_asked;
use ascii::output::Output;
use line::words::{ListWord, PairWord, put_expected};
use stream::{Responder, Step, respond_to_lines};

// The most bytes of a question line.
pub const MAX_LINE: usize = 8192;

// No answer is longer than this.
const MAX_ANSWER: usize = 20_000;

// Puts the answer to a word that takes a list alone.
fn put_of_list(out: &mut Output<'_>, w: ListWord, list: &[u8])
    ensures { PutsUpTo max_answer out.old out.new (of_list out.old.lines w list.now) }
{
    match w {
        ListWord::Show => lists::put_list_shown(out, list),
        ListWord::Nybbles => put_list_nybbles(out, list),
    }
}

// Puts the answer to a word that takes two lists.
fn put_of_pair(out: &mut Output<'_>, w: PairWord, first: &[u8], second: &[u8])
    ensures { PutsUpTo max_answer out.old out.new (of_pair out.old.lines w first.now second.now) }
{
    match w {
        PairWord::Compare => put_comparison(out, first, second),
        PairWord::Longer => put_longer(out, first, second),
    }
}

// Puts the answer to a question.
fn put_reply(out: &mut Output<'_>, q: Question<'_>)
    ensures { PutsUpTo max_answer out.old out.new (reply_to out.old.lines q.entry) }
{
    match q {
        Question::OneList(w, list) => put_of_list(out, w, list),
        Question::HexList(hex) => lists::put_hex_as_text(out, hex),
        Question::Time(list, asked) => put_asked(out, list, asked),
        Question::TwoLists(w, first, second) => put_of_pair(out, w, first, second),
    }
}

// Puts the answer to a line.
fn put_answer(out: &mut Output<'_>, line: &[u8])
    ensures { PutsUpTo max_answer out.old out.new (answer_to out.old.lines line.now) }
{
    if MAX_LINE < line.len() {
        return out.put_all(b"? expected: a line of at most 8192 bytes");
    }
    match Question::read(line) {
        Ok(q) => put_reply(out, q),
        Err(word) => put_expected(out, word),
    }
}

// Answers a question line into an output, as far as it has room, and returns how many bytes were written. The lines of an answer have LF
// between them, or `; ` unless `lines` is true. An output of 20,000 bytes has room for any answer.
pub fn answer(line: &[u8], lines: bool, out: &mut [u8]) -> usize
    ensures { Answered (answer_to lines line.now) out.old out.new result }
{
    let mut bytes = Output::new(out, lines);
    put_answer(&mut bytes, line);
    bytes.at
}

// What answers question lines: none changes anything for the next.
#[derive(Drop)]
struct Questions;

impl Responder for Questions {
    ghost State = { Unit {0} };

    ghost state = { λ _. tt };

    ghost answering = { asking };

    fn most() -> usize {
        MAX_ANSWER + 1
    }

    fn respond(&mut self, line: &[u8], out: &mut Output) {
        put_answer(out, line);
        out.put(b'\n');
    }
}

// Answers the complete lines of an input, each by one line, as long as the output has room for any answer and its LF.
pub fn answer_lines(input: &[u8], out: &mut [u8]) -> Step
    ensures { LinesAnswered asking tt (answered asking (length out.old) tt (lines_of input.now)) out.old out.new tt result }
{
    respond_to_lines(&mut Questions, input, out)
}
