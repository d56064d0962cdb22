// The faults of words that are not those of a well-formed schedule. They are counted, so that no loop over them has a way out and each is compiled to vectors.
ghost use Rattle.std.specs.Prelude.{◌≡◌, ◌<◌, ◌≤◌, ◌&&◌, ◌==◌, nat_lt};
ghost use Rattle.schedule.specs.Schedule.{max_leaps, end_day, gap_fits, expiry_fits, gaps_fit};
ghost use Rattle.schedule.specs.WordLayout.{count_word, expiry_word, laid_out};
ghost use Rattle.schedule.specs.Private.{great_month, signs_fit, RestClear};

use crate::{FIRST_DAY, LAST_MONTH, MAX_GAP};

// 0 if the gap from a month to another is 1 to 999, else 1. One comparison sees both ends: a gap below 1 wraps round to a great number. From a
// month as great as no list has, a gap may wrap too.
pub(crate) fn misfit(from: u32, to: u32) -> u32
    ensures { (from < great_month → (result == 0) ≡ gap_fits from to) × (result ≤ 1) }
{
    let gap = std::num::wrapping_sub_u32(to, from);
    u32::from(MAX_GAP <= std::num::wrapping_sub_u32(gap, 1))
}

// Whether an expiry day within the calendar is later than the first day of a month, and at most 999 months after it by month number. In most lists
// it lies between bounds that take no computed start: with 487 days to 16 months, counted from day 41301, no month starts as late as the month two
// numbers on would; and 1000 months have 28,000 days or more.
pub(crate) fn expiry_fits(from: u32, expiry: u32) -> bool
    requires { expiry ≤ end_day }
    ensures { result ≡ expiry_fits from expiry }
{
    if LAST_MONTH <= from {
        return false;
    }
    if expiry <= FIRST_DAY {
        return false;
    }
    if 487 * (from + 2) + 16 * 41_301 <= 16 * expiry {
        if expiry < FIRST_DAY + 28 * (from + 1000) {
            return true;
        }
    }
    let month = u32::from(calendar::latest_month(u64::from(expiry)));
    if month == from {
        return !calendar::is_first(u64::from(expiry));
    }
    misfit(from, month) == 0
}

// 0 if a sign word is 0 or 1, else 1.
fn unsigned(negative: u32) -> u32
    ensures { ((result == 0) ≡ nat_lt negative 2) × (result ≤ 1) }
{
    u32::from(1 < negative)
}

// Whether the gaps are 1 to 999 months, from month 0 over the leaps in use, the expiry fits the last, and the sign words are 0 or 1.
pub(crate) fn leaps_fit(words: &[u32; 514]) -> bool
    requires { (count_word words.now ≤ max_leaps) × (expiry_word words.now ≤ end_day) }
    ensures { result ≡ (signs_fit words.now (count_word words.now) && gaps_fit 0 (laid_out words.now).leaps (expiry_word words.now)) }
{
    let mut signs: u32 = 0;
    let mut faults: u32 = 0;
    let mut last: u32 = 0;
    for i in 0..words[512] as usize {
        let at = words[2 * i];
        signs += unsigned(words[2 * i + 1]);
        faults += misfit(last, at);
        last = at;
    }
    if signs + faults != 0 {
        return false;
    }
    expiry_fits(last, words[513])
}

// Whether the words after the leaps in use are all 0.
pub(crate) fn rest_clear(words: &[u32; 514]) -> bool
    requires { count_word words.now ≤ max_leaps }
    ensures { RestClear words.now (count_word words.now) result }
{
    let mut rest: u32 = 0;
    for word in &words[2 * words[512] as usize..512] {
        rest |= *word;
    }
    rest == 0
}
