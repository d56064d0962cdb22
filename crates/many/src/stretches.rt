// A well-formed list prepared for many questions, in one array: the days on which its leaps take effect, the leaps of each sign by then, where to
// start looking, and the last day. From one such day to the next is a stretch, in which DTAI is the same.
ghost use Rattle.std.specs.Prelude.{◌≡◌, ◌+◌, ◌≤◌, ◌<◌, length, get_or};
ghost use Rattle.calendar.specs.Calendar.{end_day};
ghost use Rattle.schedule.specs.Schedule.{Schedule};
ghost use Rattle.schedule.specs.WordLayout.{meant};
ghost use Rattle.clock.specs.Days.{ending};
ghost use Rattle.many.specs.Private.{last_of, Within, Clear, Empty, Starts, Fenced, Tallies, Small, Stretch, Guesses, Prepared, Ready};

use clock::Ending;
use questions::by_day::last_day;
use schedule::List;

// The days stand from place 0 on; from these places on the positive and the negative leaps by then, and where to start looking; then the last day.
pub(crate) const UPS: usize = 258;

pub(crate) const DOWNS: usize = 516;

pub(crate) const GUESSES: usize = 774;

pub(crate) const LAST: usize = 1668;

// A day after all that are asked about.
const FAR: u32 = 4_294_967_295;

// Where to start looking is kept for each span of so many days.
pub(crate) const SPAN: u32 = 128;

// The first day of 1972 lies in span 322, the last day of the calendar in span 893.
const FIRST_SPAN: usize = 322;

// No leap takes effect, but far away.
fn lay_far(prepared: &mut [u32; 1669])
    requires { length prepared.old ≡ 1669 }
    ensures { Within 1 258 prepared.old prepared.new × Empty prepared.new }
{
    prepared[1..258].fill(FAR);
}

// The day on which each leap takes effect, from place 1 on.
fn lay_starts(list: List<'_>, prepared: &mut [u32; 1669])
    requires { (length prepared.old ≡ 1669) × Empty prepared.old }
    ensures { Within 1 258 prepared.old prepared.new × Starts (meant list.entry.words.now) prepared.new }
{
    for i in 0..list.count() {
        let month = list.words[2 * i];
        prepared[i + 1] = calendar::first_day(month as u16) as u32;
    }
}

// How many of the first leaps have each sign, for each number of them.
fn lay_tallies(list: List<'_>, prepared: &mut [u32; 1669])
    requires { (length prepared.old ≡ 1669) × Clear 258 774 prepared.old }
    ensures { Within 258 774 prepared.old prepared.new × Tallies (meant list.entry.words.now) prepared.new × Small prepared.new }
{
    let mut down: u32 = 0;
    for i in 0..list.count() {
        down += list.words[2 * i + 1];
        let next = i + 1;
        prepared[UPS + next] = next as u32 - down;
        prepared[DOWNS + next] = down;
    }
}

// The place of the stretch that a day lies in, from a place at or before it.
pub(crate) fn walk(prepared: &[u32; 1669], from: usize, day: u32) -> usize
    requires { (from ≤ 256) × (get_or prepared.now from 0 ≤ day) × (day < get_or prepared.now 257 0) }
    ensures { Stretch prepared.now day result }
{
    let mut at = from;
    while prepared[at + 1] <= day {
        at += 1;
    }
    at
}

// A place and, if its stretch is over by the day, the next one: a first step of the walk that is taken with no branch.
pub(crate) fn step(prepared: &[u32; 1669], at: usize, day: u32) -> usize
    requires { (at ≤ 256) × (get_or prepared.now at 0 ≤ day) × (day < get_or prepared.now 257 0) }
    ensures { (result ≤ 256) × (get_or prepared.now result 0 ≤ day) }
{
    if prepared[at + 1] <= day {
        return at + 1;
    }
    at
}

// A place at or before the stretch of each day, span by span up to the last day.
fn lay_guesses(prepared: &mut [u32; 1669])
    requires { (length prepared.old ≡ 1669) × Fenced prepared.old × (last_of prepared.old < end_day) × Clear 774 1668 prepared.old }
    ensures { Within 774 1668 prepared.old prepared.new × Guesses prepared.new }
{
    let end = (prepared[LAST] / SPAN) as usize;
    let mut at: usize = 0;
    for i in FIRST_SPAN..end + 1 {
        at = walk(prepared, at, SPAN * i as u32);
        prepared[GUESSES + i] = at as u32;
    }
}

// A list prepared, in an array that was clear.
pub(crate) fn prepare(list: List<'_>, prepared: &mut [u32; 1669])
    requires { (length prepared.old ≡ 1669) × Clear 0 1669 prepared.old }
    ensures { Ready prepared.new × Prepared (meant list.entry.words.now) prepared.new }
{
    prepared[LAST] = last_day(list) as u32;
    lay_far(prepared);
    lay_starts(list, prepared);
    lay_tallies(list, prepared);
    lay_guesses(prepared);
}

// How a day of the stretch at a place ends: as usual, if the next stretch does not start on the next day; else by the sign of the leap that
// starts it, which is negative if it adds to the negative ones.
pub(crate) fn ending_in(prepared: &[u32; 1669], at: usize, day: u32) -> Ending
    requires { Stretch prepared.now day at × (day < end_day) }
    ensures { (s : Schedule) → Prepared s prepared.now → result ≡ ending s day }
{
    let next = at + 1;
    if prepared[next] != day + 1 {
        return Ending::Ordinary;
    }
    if prepared[DOWNS + at] < prepared[DOWNS + next] {
        return Ending::Deleted;
    }
    Ending::Inserted
}
