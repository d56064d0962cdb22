// What is answered by what a list says of a day: for single questions, whose day is found in the words, and for many, whose days are found in a
// list prepared.
ghost use Rattle.std.specs.Prelude.{◌≡◌, ◌-◌, ◌<◌, ◌≤◌, min};
ghost use Rattle.clock.specs.Days.{short_day};
ghost use Rattle.calendar.specs.Calendar.{end_day};
ghost use Rattle.clock.specs.Answers.{tai_count, utc_count, uts_count, instant};
ghost use Rattle.schedule.specs.WordLayout.{meant};
ghost use Rattle.clock.specs.Known.{last_day};
ghost use Rattle.refusals.specs.Answer.{answer_by, answer_of};
ghost use Rattle.questions.specs.Said.{dtai_said, dtai_by, tai_by, uts_by, early_uts, micros_by, early_micros, near_day, on_day, from_start, utc_by};

use crate::days::{check_date, day_length, tai_at};
use crate::instants::{check_instant, check_utc, is_known};
use crate::smooth::{smoothed, unsmoothed};
use calendar::{END_DAY, FIRST_DAY};
use clock::{
    Ending, FIRST_DTAI, FIRST_TAI, MICROS_PER_DAY, NANOS_CUTOFF, NANOS_PER_DAY, SHORT_DAY,
    TAI_CUTOFF, TaiMicros, UTS_CUTOFF, UtcInstant, UtcMicros, UtsNanos,
};
use refusals::Refusal;
use schedule::List;

// No DTAI is above 266 s: in microseconds.
const MOST_DTAI: u64 = 266_000_000;

// What a list says of a day: how many seconds its leaps have added by then and how many they have taken away, how the day ends, and Z, the last day
// before expiry.
#[derive(Clone, Copy, Debug, PartialEq, Eq)]
pub struct Day {
    pub up: u16,
    pub down: u16,
    pub ending: Ending,
    pub last: u64,
}

// The last day before an expiry. Past the calendar, where no list expires, it is the calendar's last day, and for day 0 it is day 0.
pub fn day_before(expiry: u32) -> u64
    ensures { result ≡ min (expiry - 1) (end_day - 1) }
{
    u64::from(expiry.saturating_sub(1)).min(END_DAY - 1)
}

// Z, the last day of a list before its expiry.
pub fn last_day(list: List<'_>) -> u64
    ensures { result ≡ last_day (meant list.entry.words.now) }
{
    day_before(list.expiry())
}

// The day of a TAI or the one before it, and at most `last`.
pub fn near_day(tai: TaiMicros, last: u64) -> u64
    ensures { result ≡ near_day tai.0 last }
{
    (FIRST_DAY + tai.0.saturating_sub(MOST_DTAI) / MICROS_PER_DAY).min(last)
}

// The DTAI that is said of a day; it may be below zero.
fn dtai_said(k: Day) -> i32
    ensures { result ≡ dtai_said k }
{
    (FIRST_DTAI + u32::from(k.up)) as i32 - i32::from(k.down)
}

// DTAI, TAI minus UTC, for a date.
pub fn dtai_on(said: Result<Day, Refusal>, day: u64) -> Result<i32, Refusal>
    ensures { answer_of result ≡ dtai_by (answer_of said) day }
{
    let k = said?;
    check_date(k.last, day)?;
    Ok(dtai_said(k))
}

// UTC to TAI.
pub fn tai_on(said: Result<Day, Refusal>, day: u64, t: UtcMicros) -> Result<TaiMicros, Refusal>
    ensures { answer_by tai_count result ≡ tai_by (answer_of said) day t.0 }
{
    let k = said?;
    // No list ends so late.
    if END_DAY <= k.last {
        return Err(Refusal::NotWellFormed);
    }
    check_utc(k.last, k.ending, TAI_CUTOFF, day, t.0)?;
    Ok(TaiMicros(tai_at(k, day, t.0)))
}

// UTC to smoothed time.
pub fn uts_on(said: Result<Day, Refusal>, day: u64, t: UtcMicros) -> Result<UtsNanos, Refusal>
    ensures { answer_by uts_count result ≡ uts_by (answer_of said) day t.0 }
{
    let k = said?;
    check_utc(k.last, k.ending, UTS_CUTOFF, day, t.0)?;
    Ok(UtsNanos(smoothed(k.ending, t.0)))
}

// UTC to smoothed time before the last 1,001 s of a day, where it does not depend on how the day ends and is known on every known
// date.
pub fn early_uts(last: Result<u64, Refusal>, day: u64, t: UtcMicros) -> Result<UtsNanos, Refusal>
    ensures { answer_by uts_count result ≡ early_uts (answer_of last) day t.0 }
{
    check_date(last?, day)?;
    // So the product fits for any number; before the cut-off the smaller one is the microseconds.
    Ok(UtsNanos(1000 * t.0.min(UTS_CUTOFF)))
}

// Smoothed time to UTC, likewise.
pub fn early_micros(last: Result<u64, Refusal>, day: u64, u: UtsNanos) -> Result<UtcMicros, Refusal>
    ensures { answer_by utc_count result ≡ early_micros (answer_of last) day u.0 }
{
    check_date(last?, day)?;
    Ok(UtcMicros(u.0 / 1000))
}

// Smoothed time to UTC: the greatest microsecond of the day whose smoothed time is not above the one given.
pub fn micros_on(said: Result<Day, Refusal>, day: u64, u: UtsNanos) -> Result<UtcMicros, Refusal>
    ensures { answer_by utc_count result ≡ micros_by (answer_of said) day u.0 }
{
    let k = said?;
    check_instant(k.last, NANOS_PER_DAY, NANOS_CUTOFF, day, u.0)?;
    Ok(UtcMicros(unsmoothed(k.ending, u.0)))
}

// The instant, if it is known where `last` is the last day.
fn on_day(day: u64, t: u64, last: u64) -> Result<UtcInstant, Refusal>
    ensures { answer_by instant result ≡ on_day day t last }
{
    if is_known(last, TAI_CUTOFF, day, t) {
        return Ok(UtcInstant {
            day,
            micros: UtcMicros(t),
        });
    }
    Err(Refusal::NotKnown)
}

// The instant t microseconds after a day's start, from 86,399 s on. It stands apart, so that `utc_on` is small enough for the compiler to put it
// into the loop of many.
fn late_from_start(k: Day, day: u64, t: u64) -> Result<UtcInstant, Refusal>
    requires { (day < end_day) × (short_day ≤ t) }
    ensures { answer_by instant result ≡ from_start k day t }
{
    let length = day_length(k.ending);
    if length <= t {
        return on_day(day + 1, t - length, k.last);
    }
    on_day(day, t, k.last)
}

// TAI to UTC, by the day near it: the one instant whose TAI it is. It lies on that day or on the next.
pub fn utc_on(said: Result<Day, Refusal>, near: u64, tai: TaiMicros) -> Result<UtcInstant, Refusal>
    ensures { answer_by instant result ≡ utc_by (answer_of said) near tai.0 }
{
    let k = said?;
    if tai.0 < FIRST_TAI {
        return Err(Refusal::Before1972);
    }
    // No list knows so late a day.
    if END_DAY <= near {
        return Err(Refusal::NotKnown);
    }
    let t = tai.0.wrapping_sub(tai_at(k, near, 0));
    // Every day has so much, however it ends, and on the last day it is known.
    if t < SHORT_DAY {
        return Ok(UtcInstant {
            day: near,
            micros: UtcMicros(t),
        });
    }
    late_from_start(k, near, t)
}
