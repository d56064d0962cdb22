// Answers the question that its arguments are, or every line of its standard input. The crates `command` and `replay` make the answers; here bytes
// are moved.
#![tactic(auto)]

mod lines; // lines.rt: the lines of standard input, questions or a trace
mod output; // output.rt: standard output

use crate::lines::{Questions, Trace};
use crate::output::print_answer;
use ascii::parts::split_once;
use line::words::word_of;
use shell::arguments::put_arguments;
use shell::help;
use shell::output::write;
use shell::words::{Own, own_of};
use std::env::FillError;
use std::rt::Env;

const EXPECTED: &[u8] =
    b"? expected: show, nybbles, text, dtai, tai, utc, uts, unsmooth, compare, longer, ask, replay or help\n";

// Answers a word that is none of a question's, by what stands behind it: nothing may behind `ask` and `replay`, and behind `help` a word.
fn run_own(rt: &HostRuntime, own: Own, rest: Option<&[u8]>) {
    match (own, rest) {
        (Own::Ask, None) => lines::answer(rt, Questions),
        (Own::Ask, Some(_)) => {
            write(rt, b"? expected: ask\n");
        }
        (Own::Replay, None) => lines::answer(rt, Trace::new()),
        (Own::Replay, Some(_)) => {
            write(rt, b"? expected: replay\n");
        }
        (Own::Help, None) => help::print(rt),
        (Own::Help, Some(word)) => help::print_word(rt, word),
    }
}

// Answers a line: a question, or a word of the program's own.
fn run(rt: &HostRuntime, line: &[u8]) {
    let (word, rest) = match split_once(line, b' ') {
        Some((word, rest)) => (word, Some(rest)),
        None => (line, None),
    };
    if word_of(word).is_some() {
        print_answer(rt, line, true);
    } else if let Some(own) = own_of(word) {
        run_own(rt, own, rest);
    } else {
        write(rt, EXPECTED);
    }
}

// How many arguments there are, the program's name among them.
fn argument_count(rt: &HostRuntime) -> usize {
    for i in 0..usize::MAX {
        if let Err(FillError::NotPresent) = rt.arg(i, &mut []) {
            return i;
        }
    }
    usize::MAX
}

fn main(rt: HostRuntime) {
    let count = argument_count(&rt);
    if count < 2 {
        help::print(&rt);
        return;
    }
    let mut line = io::large_buffer();
    let n = put_arguments(&rt, &mut line, count);
    run(&rt, &line[..n]);
}
