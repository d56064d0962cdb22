// Smoothed time (UTS) of a day with a known ending, and the way back.
ghost use Rattle.std.specs.Prelude.{◌≡◌, ◌<◌};
ghost use Rattle.clock.specs.Days.{day_length};
ghost use Rattle.clock.specs.Smoothed.{nanos_per_day, uts, utc_of};

use crate::days::day_length;
use clock::Ending;

// The last 1,000 s of a day with a leap are smoothed: in microseconds.
const SMOOTHING: u64 = 1_000_000_000;

// They start at 23:43:21 before an inserted second and at 23:43:19 before a deleted one: in microseconds.
const INSERTED_FROM: u64 = 85_401_000_000;

const DELETED_FROM: u64 = 85_399_000_000;

// UTS in nanoseconds, t microseconds into a day with that ending.
pub(crate) fn smoothed(w: Ending, t: u64) -> u64
    requires { t < day_length w }
    ensures { result ≡ uts w t }
{
    let plain = 1000 * t;
    let left = day_length(w) - t;
    if SMOOTHING <= left {
        return plain;
    }
    let shift = SMOOTHING - left;
    match w {
        Ending::Ordinary => plain,
        Ending::Inserted => plain - shift,
        Ending::Deleted => plain + shift,
    }
}

// The greatest microsecond of a day with that ending whose UTS is not above u nanoseconds. Smoothed, a microsecond is 999 nanoseconds
// before an inserted second and 1001 before a deleted one.
pub(crate) fn unsmoothed(w: Ending, u: u64) -> u64
    requires { u < nanos_per_day }
    ensures { result ≡ utc_of w u }
{
    match w {
        Ending::Ordinary => u / 1000,
        Ending::Inserted => {
            if u < 1000 * INSERTED_FROM {
                return u / 1000;
            }
            (u - INSERTED_FROM) / 999
        }
        Ending::Deleted => {
            if u < 1000 * DELETED_FROM {
                return u / 1000;
            }
            (u + DELETED_FROM) / 1001
        }
    }
}
