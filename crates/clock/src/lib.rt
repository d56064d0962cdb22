// The clock: what a list of leap seconds says of times, in definitions and laws. Here are the numbers and the types that the five questions are
// asked and answered with: DTAI for a date, UTC to TAI and back, UTC to smoothed time (UTS) and back.
#![tactic(auto)]

// A second in microseconds.
pub const MICROS_PER_SECOND: u64 = 1_000_000;

// A day of 86,400 s in microseconds.
pub const MICROS_PER_DAY: u64 = 86_400_000_000;

// A day of 86,401 s in microseconds: no day is longer.
pub const LONG_DAY: u64 = 86_401_000_000;

// A day of 86,399 s in microseconds: no day is shorter.
pub const SHORT_DAY: u64 = 86_399_000_000;

// A UTS day, which always has 86,400 s, in nanoseconds.
pub const NANOS_PER_DAY: u64 = 86_400_000_000_000;

// DTAI before any leap.
pub const FIRST_DTAI: u32 = 10;

// The TAI of 1972-01-01 00:00:00 UTC.
pub const FIRST_TAI: u64 = 10_000_000;

// On Z TAI is given below this microsecond,
pub const TAI_CUTOFF: u64 = 86_399_000_000;

// UTS below this microsecond,
pub const UTS_CUTOFF: u64 = 85_399_000_000;

// and UTC from UTS below this nanosecond.
pub const NANOS_CUTOFF: u64 = 85_399_000_000_000;

// Microseconds of a UTC day.
#[derive(Clone, Copy, Debug, PartialEq, Eq)]
pub struct UtcMicros(pub u64);

// Nanoseconds of a UTS day, which always has 86,400 s.
#[derive(Clone, Copy, Debug, PartialEq, Eq)]
pub struct UtsNanos(pub u64);

// Microseconds from 1972-01-01 00:00:00 TAI.
#[derive(Clone, Copy, Debug, PartialEq, Eq)]
pub struct TaiMicros(pub u64);

// An instant of UTC: an MJD and microseconds of that day.
#[derive(Clone, Copy, Debug, PartialEq, Eq)]
pub struct UtcInstant {
    pub day: u64,
    pub micros: UtcMicros,
}

// How a day ends: as usual, with a second inserted, or with its last second deleted.
#[derive(Clone, Copy, Debug, PartialEq, Eq)]
pub enum Ending {
    Ordinary,
    Inserted,
    Deleted,
}
