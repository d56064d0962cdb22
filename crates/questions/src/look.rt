// One look at a list for a day: what it says of the day.
ghost use Rattle.std.specs.Prelude.{◌≡◌, ℕ, ◌≤◌, length};
ghost use Rattle.calendar.specs.Calendar.{InMonth};
ghost use Rattle.schedule.specs.WordLayout.{meant};
ghost use Rattle.clock.specs.Days.{ending_of, ending};
ghost use Rattle.clock.specs.Known.{last_day};
ghost use Rattle.questions.specs.Said.{SaidOf};
ghost use Rattle.questions.specs.Private.{ByMonth, Lowered};

use crate::by_day::{Day, last_day};
use clock::Ending;
use schedule::{List, Sign};

// How a day ends at whose end a leap of the sign happens.
fn ending_of(sign: Sign) -> Ending
    ensures { result ≡ ending_of sign }
{
    match sign {
        Sign::Positive => Ending::Inserted,
        Sign::Negative => Ending::Deleted,
    }
}

// How many leaps of a list lie at a month or before it. The last ones are looked at first, since most days asked about are late. Here and in
// `lowered` the leaps are read from the words, not by the list's methods, which took a fifth more time for the whole question.
fn leaps_by(list: List<'_>, month: u32) -> usize
    ensures { ByMonth (meant list.entry.words.now).leaps month result }
{
    for before in (0..list.count()).rev() {
        if list.words[2 * before] <= month {
            return before + 1;
        }
    }
    0
}

// How many of the first n leaps of a list are negative: those have the sign word 1, the others 0.
fn lowered(list: List<'_>, n: usize) -> u32
    requires { n ≤ length (meant list.words.now).leaps }
    ensures { Lowered (meant list.entry.words.now).leaps n result }
{
    let mut down: u32 = 0;
    for i in 0..n {
        down += list.words[2 * i + 1];
    }
    down
}

// How a day ends by whose month n leaps of a list lie: by the sign of the next one, if that takes effect on the next day. Rarely does it. Where there
// is no next leap, it has month 0, which no day comes before.
fn ending_on(list: List<'_>, n: usize, day: u64) -> Ending
    ensures { (month : ℕ) → ByMonth (meant list.entry.words.now).leaps month n → InMonth day month → result ≡ ending (meant list.entry.words.now) day }
{
    if calendar::first_day(list.month(n) as u16) - 1 == day {
        return ending_of(list.sign(n));
    }
    Ending::Ordinary
}

// The look at a list for a day of a month.
pub(crate) fn look(list: List<'_>, month: u32, day: u64) -> Day
    ensures { (result.last ≡ last_day (meant list.entry.words.now)) × (InMonth day month → SaidOf (meant list.entry.words.now) day result) }
{
    let n = leaps_by(list, month);
    let down = lowered(list, n);
    let ending = ending_on(list, n, day);
    Day {
        up: (n as u32 - down) as u16,
        down: down as u16,
        ending,
        last: last_day(list),
    }
}
