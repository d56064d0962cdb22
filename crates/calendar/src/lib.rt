// Months and days: the day on which each month from January 1972 to January 2172 starts, and the month of a day.
// A day is a Modified Julian Day; month 0 is January 1972.
#![tactic(auto)]

ghost use Rattle.std.specs.Prelude.{◌≡◌, min, ◌≤◌, ◌<◌};
ghost use Rattle.refusals.specs.Answer.{answer_of};
ghost use Rattle.calendar.specs.Calendar.{first_day, last_month, end_day, month_start, month_of, MonthOrNext, starts_month, month_at};

mod table;

use refusals::Refusal;
use table::MONTH_STARTS;

// Month 0 starts on 1 January 1972.
pub const FIRST_DAY: u64 = 41_317;

// Month numbers run to 2400.
pub const LAST_MONTH: u16 = 2400;

// Month 2400 starts on 1 January 2172.
pub const END_DAY: u64 = 114_366;

// The month itself, or month 2400 for one past it.
fn at_most_last(month: u32) -> u16
    ensures { result ≡ min month last_month }
{
    month.min(u32::from(LAST_MONTH)) as u16
}

// The table's entry for a month. No other function reads the table: each read builds all of it on the stack.
fn entry(month: u16) -> u32
    requires { month ≤ last_month }
    ensures { result ≡ month_start month }
{
    MONTH_STARTS[month as usize]
}

// The day on which a month starts, from the table. A month past 2400, which the paper leaves free, gets the start of month 2400.
pub fn month_start(month: u32) -> u64
    ensures { result ≡ month_start (min month last_month) }
{
    u64::from(entry(at_most_last(month)))
}

// The day on which a month starts, computed. A year is taken from March on here, so that a leap day is its last.
fn computed_start(month: u16) -> u64
    requires { month ≤ last_month }
    ensures { result ≡ month_start month }
{
    // Months after March 1971, which comes ten months before month 0.
    let n = u64::from(month) + 10;
    let year = 1971 + n / 12;
    // Days from 1 March of year 0 to 1 March of that year: 365 a year, one more every 4 years, one less every 100, one more every 400.
    let to_year = 365 * year + year / 4 - year / 100 + year / 400;
    // Days from 1 March to the month: five months in a row have 31 + 30 + 31 + 30 + 31 = 153, and the 2 makes a 31 the first.
    let to_month = (153 * (n % 12) + 2) / 5;
    // 1 March of year 0 is 678,881 days before day 0, 17 November 1858.
    to_year + to_month - 678_881
}

// What month_start answers, with no table and no loop, for callers that ask often.
pub fn first_day(month: u16) -> u64
    ensures { result ≡ month_start (min month last_month) }
{
    computed_start(at_most_last(u32::from(month)))
}

// An estimate of the month of a day, made with no table and no loop: that month or the next one. 400 years have 4,800 months and 146,097 days,
// so 16 months have 487 days on average, less a hundredth. Any first day from 41287 to 41314 would serve; 41301 is about their middle.
fn estimate(day: u64) -> u16
    requires { (first_day ≤ day) × (day < end_day) }
    ensures { MonthOrNext day result }
{
    ((day - 41_301) * 16 / 487) as u16
}

// The month of a day: the estimated one, or the one before it where the estimated one starts after the day.
fn month_by_estimate(day: u64) -> u16
    requires { (first_day ≤ day) × (day < end_day) }
    ensures { result ≡ month_of day }
{
    let month = estimate(day);
    if day < computed_start(month) {
        return month - 1;
    }
    month
}

// The month of a day. It is refused with 8 before 1972, and with 10 from the start of month 2400 on.
#[tactic(auto, unfolding(crate::specs::Calendar::month_at))]
pub fn month_of(day: u64) -> Result<u16, Refusal>
    ensures { answer_of result ≡ month_at day }
{
    if day < FIRST_DAY {
        return Err(Refusal::Before1972);
    }
    if END_DAY <= day {
        return Err(Refusal::NotKnown);
    }
    Ok(month_by_estimate(day))
}

// The last month, up to month 2400, that has started by a day; month 0 where none has.
pub fn latest_month(day: u64) -> u16
    ensures { result ≡ month_of day }
{
    if day < FIRST_DAY {
        return 0;
    }
    if day < END_DAY {
        return month_by_estimate(day);
    }
    LAST_MONTH
}

// Whether a day is the first of a month, up to month 2400.
pub fn is_first(day: u64) -> bool
    ensures { result ≡ starts_month day }
{
    first_day(latest_month(day)) == day
}
