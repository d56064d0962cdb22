// A recorded trace of lines, replayed: lists that are used, stored and gone back to, and questions for smoothed time. Any bytes may be given.
#![tactic(auto)]

ghost use Rattle.std.specs.Prelude.{◌≡◌, [], ◌∷◌, length};
ghost use Rattle.ascii.specs.Output.{PutsUpTo};
ghost use Rattle.clock.specs.Answers.{uts_count};
ghost use Rattle.refusals.specs.Answer.{answer_by, answer_of};
ghost use Rattle.refusals.specs.Refusals.{number_of};
ghost use Rattle.schedule.specs.Answers.{fitting, fitted};
ghost use Rattle.text.specs.Read.{read_text};
ghost use Rattle.stream.specs.Lines.{lines_of};
ghost use Rattle.stream.specs.Stream.{answered, LinesAnswered};
ghost use Rattle.replay.specs.Trace.{meaning};
ghost use Rattle.replay.specs.Replay.{State, time, refuse, on_day, numbered, read_over, shown, unended, replaying};

mod meaning; // meaning.rt: what a line says

use crate::meaning::{Said, meaning};
use ascii::output::Output;
use clock::UtsNanos;
use refusals::Refusal;
use stream::{Responder, Step, respond_to_lines};

// No line prints more bytes than this.
pub const MAX_PRINTED: usize = 22;

// How many bytes refusal 20 is as it is printed, with its LF.
const NO_LINE_BYTES: usize = 4;

// Puts a refusal and an LF.
fn put_refused(out: &mut Output<'_>, why: Refusal)
    ensures { PutsUpTo 22 out.old out.new (shown (refuse (number_of why))) }
{
    out.put_refusal(why);
    out.put(b'\n');
}

// Puts a day, the nanoseconds of it and an LF.
fn put_time(out: &mut Output<'_>, day: u64, u: UtsNanos)
    ensures { PutsUpTo 42 out.old out.new (shown (time day u.0)) }
{
    out.put_two_numbers(day, u.0);
    out.put(b'\n');
}

// Puts the answer to a question.
fn put_smoothed(out: &mut Output<'_>, day: u64, answer: Result<UtsNanos, Refusal>)
    ensures { PutsUpTo 42 out.old out.new (shown (on_day day (answer_by uts_count answer))) }
{
    match answer {
        Ok(u) => put_time(out, day, u),
        Err(why) => put_refused(out, why),
    }
}

// Makes a text list the current one, or puts its refusal.
#[tactic(auto, unfolding(crate::specs::Replay::shown), using(ascii::proofs::Putting::nothing))]
fn use_list(list: &[u8], current: &mut [u32; 514], out: &mut Output<'_>)
    ensures puts { PutsUpTo 22 out.old out.new (shown (numbered (read_text list.now).number)) }
    ensures current { current.new ≡ read_over list.now current.old }
{
    let mut words = [0u32; 514];
    match text::read_text(list, &mut words) {
        Ok(()) => *current = words,
        Err(error) => put_refused(out, error.refusal),
    }
}

// The current list and the stored one, lent.
#[derive(Drop)]
struct Lists<'a> {
    current: &'a mut [u32; 514],
    stored: &'a mut [u32; 514],
}

impl Responder for Lists<'_> {
    ghost State = { State };

    ghost state = { λ lists. record { current = lists.current.now; stored = lists.stored.now } };

    ghost answering = { replaying };

    ghost lent = { λ lists. lists.current.ghost_name ∷ lists.stored.ghost_name ∷ [] };

    fn most() -> usize
        ensures { result ≡ replaying.most }
    {
        MAX_PRINTED
    }

    #[tactic(auto, unfolding(crate::specs::Replay::reply, crate::specs::Replay::next, crate::specs::Replay::shown), using(crate::proofs::Room::at_most, ascii::proofs::Putting::nothing))]
    fn respond(&mut self, line: &[u8], out: &mut Output) {
        match meaning(line) {
            Some(Said::Use(list)) => use_list(list, self.current, out),
            Some(Said::Store) => *self.stored = *self.current,
            Some(Said::Reset) => *self.current = *self.stored,
            Some(Said::Ask(day, t)) => {
                put_smoothed(out, day, questions::utc_to_uts(self.current, day, t))
            }
            None => put_refused(out, Refusal::NoLine),
        }
    }
}

// Replays the complete lines of a trace from a current and a stored list, as long as the output has room for the most that a line prints. A caller goes
// on with what is left of the trace.
pub fn replay(
    current: &mut [u32; 514],
    stored: &mut [u32; 514],
    trace: &[u8],
    out: &mut [u8],
) -> Step
    ensures { LinesAnswered replaying (record { current = current.old; stored = stored.old }) (answered replaying (length out.old) (record { current = current.old; stored = stored.old }) (lines_of trace.now)) out.old out.new (record { current = current.new; stored = stored.new }) result }
{
    respond_to_lines(&mut Lists { current, stored }, trace, out)
}

// Ends a trace: writes what its end prints, `left` being what stands after its last LF; 7 where the output has no room for that.
pub fn replay_end(left: &[u8], out: &mut [u8]) -> Result<usize, Refusal>
    ensures { (answer_of result ≡ fitting (unended left.now) (length out.old)) × (out.new ≡ fitted (unended left.now) out.old) }
{
    if left.is_empty() {
        return Ok(0);
    }
    if out.len() < NO_LINE_BYTES {
        return Err(Refusal::OutputShort);
    }
    let mut output = Output::new(out, false);
    put_refused(&mut output, Refusal::NoLine);
    Ok(output.at)
}
