// Answers to time questions under a list.
ghost use Rattle.std.specs.Prelude.{◌≡◌, MatchResult};
ghost use Rattle.ascii.specs.Output.{PutsUpTo};
ghost use Rattle.ascii.specs.Refusal.{refusal};
ghost use Rattle.refusals.specs.Refusals.{number_of};
ghost use Rattle.schedule.specs.WordLayout.{meant};
ghost use Rattle.answers.specs.Times.{asked_of, asked_under, question_of};

use crate::lists::read_list;
use ascii::output::Output;
use clock::{TaiMicros, UtcMicros, UtsNanos};
use refusals::Refusal;

// A time question, with a day or an instant.
#[derive(Clone, Copy, Debug, PartialEq, Eq)]
pub enum Asked {
    Dtai(u64),
    Tai(u64, UtcMicros),
    Utc(TaiMicros),
    Uts(u64, UtcMicros),
    Unsmooth(u64, UtsNanos),
}

// Puts what a list, as words, gives for a time question, or hands its refusal over and puts nothing.
fn put_asked_of(out: &mut Output<'_>, words: &[u32; 514], q: Asked) -> Result<(), Refusal>
    ensures { MatchResult result (λ _. PutsUpTo 41 out.old out.new (asked_of (question_of q) (meant words.now))) (λ why. (out.new ≡ out.old) × (asked_of (question_of q) (meant words.now) ≡ refusal (number_of why))) }
{
    match q {
        Asked::Dtai(day) => out.put_signed(questions::dtai(words, day)?),
        Asked::Tai(day, t) => out.put_decimal(questions::utc_to_tai(words, day, t)?.0),
        Asked::Utc(x) => {
            let utc = questions::tai_to_utc(words, x)?;
            out.put_two_numbers(utc.day, utc.micros.0);
        }
        Asked::Uts(day, t) => out.put_decimal(questions::utc_to_uts(words, day, t)?.0),
        Asked::Unsmooth(day, u) => out.put_decimal(questions::uts_to_utc(words, day, u)?.0),
    }
    Ok(())
}

// Puts the answer of a list to a time question.
pub fn put_asked(out: &mut Output<'_>, list: &[u8], q: Asked)
    ensures { PutsUpTo 42 out.old out.new (asked_under list.now (question_of q)) }
{
    let mut words = [0u32; 514];
    if let Err(error) = read_list(list, &mut words) {
        return out.put_refusal_at(error.refusal, error.place);
    }
    if let Err(why) = put_asked_of(out, &words, q) {
        out.put_refusal(why);
    }
}
