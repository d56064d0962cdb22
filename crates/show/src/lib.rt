// A list as its stretches of constant DTAI.
#![tactic(auto)]

ghost use Rattle.std.specs.Prelude.{◌≡◌, [], ◌≤◌, ◌<◌};
ghost use Rattle.ascii.specs.Output.{PutsUpTo};
ghost use Rattle.calendar.specs.Calendar.{first_day, end_day};
ghost use Rattle.schedule.specs.WordLayout.{meant};
ghost use Rattle.show.specs.Show.{date, date_of, stretch, shown};
ghost use Rattle.clock.specs.Days.{dtai};
ghost use Rattle.show.specs.Private.{shown_from};

use ascii::output::Output;
use schedule::List;

// Puts a day of a month as a date.
fn put_date(out: &mut Output<'_>, month: u16, day: u64)
    ensures { PutsUpTo 26 out.old out.new (date month day) }
{
    let month = u64::from(month);
    out.put_decimal(1972 + month / 12);
    out.put(b'-');
    out.put_pair(month % 12 + 1);
    out.put(b'-');
    out.put_pair(day);
}

// Puts an MJD as a date.
fn put_day(out: &mut Output<'_>, day: u64)
    requires { (first_day ≤ day) × (day ≤ end_day) }
    ensures { PutsUpTo 26 out.old out.new (date_of day) }
{
    let month = calendar::latest_month(day);
    put_date(out, month, day - calendar::first_day(month) + 1);
}

// DTAI on a day that is known.
fn dtai_from(list: List<'_>, day: u64) -> i32
    requires { (first_day ≤ day) × (day < (meant list.words.now).expiry) }
    ensures { result ≡ dtai (meant list.entry.words.now) day }
{
    questions::dtai(list.words, day).unwrap()
}

// Puts a stretch, from a day to the day before another.
fn put_stretch(out: &mut Output<'_>, list: List<'_>, from: u64, to: u64)
    requires { (first_day ≤ from) × (from < to) × (to ≤ (meant list.words.now).expiry) }
    ensures { PutsUpTo 75 out.old out.new (stretch (meant list.entry.words.now) from to) }
{
    put_day(out, from);
    out.put(b' ');
    put_day(out, to - 1);
    out.put(b' ');
    out.put_with_sign(dtai_from(list, from));
}

// Puts the last stretch, and then the day from which DTAI is unknown.
fn put_last(out: &mut Output<'_>, list: List<'_>, from: u64)
    requires { (first_day ≤ from) × (from < (meant list.words.now).expiry) }
    ensures { PutsUpTo 111 out.old out.new (shown_from out.old.lines (meant list.entry.words.now) from []) }
{
    let expiry = u64::from(list.expiry());
    put_stretch(out, list, from, expiry);
    out.put_between();
    put_day(out, expiry);
    out.put_all(b" unknown");
}

// Puts the stretches of a list, and then the day from which DTAI is unknown.
fn put_stretches(out: &mut Output<'_>, list: List<'_>)
    ensures { PutsUpTo 20000 out.old out.new (shown_from out.old.lines (meant list.entry.words.now) first_day (meant list.entry.words.now).leaps) }
{
    let mut from = calendar::FIRST_DAY;
    for leap in list.leaps() {
        let start = calendar::month_start(leap.month);
        put_stretch(out, list, from, start);
        out.put_between();
        from = start;
    }
    put_last(out, list, from);
}

// Puts a list as its stretches of constant DTAI, LF between them or `; `; refusal 11 where it is not well formed.
pub fn put_shown(out: &mut Output<'_>, words: &[u32; 514])
    ensures { PutsUpTo 20000 out.old out.new (shown out.old.lines (meant words.now)) }
{
    match List::of(words) {
        Ok(list) => put_stretches(out, list),
        Err(why) => out.put_refusal(why),
    }
}
