// The five questions, one at a time: DTAI for a date, UTC to TAI and back, UTC to smoothed time (UTS) and back. Any words and any number may be
// given; what can't be answered is refused.
#![tactic(auto)]

ghost use Rattle.std.specs.Prelude.{◌≡◌};
ghost use Rattle.schedule.specs.WordLayout.{meant};
ghost use Rattle.clock.specs.Question.{dtai_on, utc_to_tai, tai_to_utc, utc_to_uts, uts_to_utc};
ghost use Rattle.clock.specs.Answers.{tai_count, utc_count, uts_count, instant};
ghost use Rattle.refusals.specs.Answer.{answer_by, answer_of};
ghost use Rattle.questions.specs.Said.{ListFor, DayFor};

pub mod by_day; // by_day.rt: what is answered by what a list says of a day
mod days;
mod instants;
mod look;
mod smooth;

use crate::by_day::{
    Day, dtai_on, early_micros, early_uts, last_day, micros_on, near_day, tai_on, utc_on, uts_on,
};
use crate::days::day_in;
use clock::{NANOS_CUTOFF, TaiMicros, UTS_CUTOFF, UtcInstant, UtcMicros, UtsNanos};
use refusals::Refusal;
use schedule::List;

// What words say of a day, if they are a list.
fn said_of(words: &[u32; 514], day: u64) -> Result<Day, Refusal>
    ensures { DayFor (meant words.now) day (answer_of result) }
{
    let list = List::of(words)?;
    Ok(day_in(list, day))
}

// The last day of words before their expiry, if they are a list.
fn last_of(words: &[u32; 514]) -> Result<u64, Refusal>
    ensures { ListFor (meant words.now) (answer_of result) }
{
    let list = List::of(words)?;
    Ok(last_day(list))
}

// DTAI, TAI minus UTC, for a date.
#[tactic(auto, using(crate::proofs::Said::dtai_said_lem))]
pub fn dtai(words: &[u32; 514], day: u64) -> Result<i32, Refusal>
    ensures { answer_of result ≡ dtai_on (meant words.now) day }
{
    dtai_on(said_of(words, day), day)
}

// UTC to TAI.
#[tactic(auto, using(crate::proofs::Said::tai_said_lem))]
pub fn utc_to_tai(words: &[u32; 514], day: u64, t: UtcMicros) -> Result<TaiMicros, Refusal>
    ensures { answer_by tai_count result ≡ utc_to_tai (meant words.now) day t.0 }
{
    tai_on(said_of(words, day), day, t)
}

// TAI to UTC: the one instant whose TAI it is.
pub fn tai_to_utc(words: &[u32; 514], x: TaiMicros) -> Result<UtcInstant, Refusal>
    ensures { answer_by instant result ≡ tai_to_utc (meant words.now) x.0 }
{
    let list = List::of(words)?;
    let near = near_day(x, last_day(list));
    utc_on(Ok(day_in(list, near)), near, x)
}

// UTC to smoothed time.
#[tactic(auto, using(crate::proofs::Said::early_uts_said, crate::proofs::Said::uts_said))]
pub fn utc_to_uts(words: &[u32; 514], day: u64, t: UtcMicros) -> Result<UtsNanos, Refusal>
    ensures { answer_by uts_count result ≡ utc_to_uts (meant words.now) day t.0 }
{
    if t.0 < UTS_CUTOFF {
        return early_uts(last_of(words), day, t);
    }
    uts_on(said_of(words, day), day, t)
}

// Smoothed time to UTC: the greatest microsecond of the day whose smoothed time is not above the one given.
#[tactic(auto, using(crate::proofs::Said::early_micros_said, crate::proofs::Said::micros_said))]
pub fn uts_to_utc(words: &[u32; 514], day: u64, u: UtsNanos) -> Result<UtcMicros, Refusal>
    ensures { answer_by utc_count result ≡ uts_to_utc (meant words.now) day u.0 }
{
    if u.0 < NANOS_CUTOFF {
        return early_micros(last_of(words), day, u);
    }
    micros_on(said_of(words, day), day, u)
}
