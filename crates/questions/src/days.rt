// What a list says of a day, from one look at the words and one lookup in the calendar; and what a date is refused with.
ghost use Rattle.std.specs.Prelude.{◌≡◌, ◌-◌, ◌<◌, ◌≤◌, true, OnOk};
ghost use Rattle.calendar.specs.Calendar.{first_day, end_day};
ghost use Rattle.refusals.specs.Answer.{answer_of};
ghost use Rattle.schedule.specs.WordLayout.{meant};
ghost use Rattle.clock.specs.Days.{long_day, day_length};
ghost use Rattle.clock.specs.Question.{at_date};
ghost use Rattle.questions.specs.Said.{tai_said, DaySaid};

use crate::by_day::Day;
use crate::look::look;
use calendar::FIRST_DAY;
use clock::{Ending, FIRST_DTAI, LONG_DAY, MICROS_PER_DAY, MICROS_PER_SECOND, SHORT_DAY};
use refusals::Refusal;
use schedule::List;

// A day's length in microseconds.
pub(crate) fn day_length(w: Ending) -> u64
    ensures { result ≡ day_length w }
{
    match w {
        Ending::Ordinary => MICROS_PER_DAY,
        Ending::Inserted => LONG_DAY,
        Ending::Deleted => SHORT_DAY,
    }
}

// What a list says of a day. Outside the calendar any month will do, since only `last` means something then.
pub(crate) fn day_in(list: List<'_>, day: u64) -> Day
    ensures { DaySaid (meant list.entry.words.now) day result }
{
    let month = calendar::month_of(day).unwrap_or(0);
    look(list, u32::from(month), day)
}

// What a date is refused with under a list whose last day is given.
pub(crate) fn check_date(last: u64, date: u64) -> Result<(), Refusal>
    ensures checks { answer_of result ≡ at_date true last date tt }
    ensures passed { OnOk result ((first_day ≤ date) × (date ≤ last)) }
{
    if date < FIRST_DAY {
        return Err(Refusal::Before1972);
    }
    if last < date {
        return Err(Refusal::NotKnown);
    }
    Ok(())
}

// TAI, t microseconds into a day of the calendar. Of counts that no list has by then the difference may wrap.
pub(crate) fn tai_at(k: Day, day: u64, t: u64) -> u64
    requires { (day < end_day) × (t < long_day) }
    ensures { result ≡ tai_said k day t }
{
    let raised = MICROS_PER_DAY * day
        + t
        + MICROS_PER_SECOND * u64::from(FIRST_DTAI + u32::from(k.up));
    let lowered = MICROS_PER_DAY * FIRST_DAY + MICROS_PER_SECOND * u64::from(k.down);
    raised.wrapping_sub(lowered)
}
