// The codes of a nybble list: what a nybble says, alone or with the next one. M, N, P and G are bits of a code, as in 1MNP and G.
ghost use Rattle.std.specs.Prelude.{◌≡◌, ◌*◌, ◌≤◌, ◌<◌, length, get_or};
ghost use Rattle.schedule.specs.Schedule.{last_month};
ghost use Rattle.nybbles.specs.Codes.{nybbles, mark_of, np_of_mark, single, wide};
ghost use Rattle.nybbles.specs.Private.{Next};

use schedule::Sign;

// What M says that the months of a code are counted in.
#[derive(Clone, Copy)]
pub(crate) enum Unit {
    Sixes = 0,
    Months = 1,
}

// G of a nybble 1MNP that is the last.
const LAST_G: u8 = 4;

// What stands at the end of a code's months: nothing, since the gap continues, or a leap, or the expiry.
#[derive(Clone, Copy)]
pub(crate) enum Mark {
    Continues,
    Leaps(Sign),
    Expires,
}

impl Mark {
    // The bits NP of a mark.
    pub(crate) fn np(self) -> u8
        ensures { result ≡ np_of_mark self }
    {
        match self {
            Mark::Continues => 0b00,
            Mark::Leaps(Sign::Positive) => 0b01,
            Mark::Leaps(Sign::Negative) => 0b10,
            Mark::Expires => 0b11,
        }
    }

    // The mark of the bits NP.
    fn of_np(np: u8) -> Mark
        ensures { result ≡ mark_of np }
    {
        match np {
            0b01 => Mark::Leaps(Sign::Positive),
            0b10 => Mark::Leaps(Sign::Negative),
            0b11 => Mark::Expires,
            _ => Mark::Continues,
        }
    }
}

// A code: its months, its mark, and how many nybbles it has.
#[derive(Clone, Copy)]
pub(crate) struct Code {
    pub(crate) months: u32,
    pub(crate) mark: Mark,
    pub(crate) size: usize,
}

// The code of a nybble below 8.
#[tactic(auto, unfolding(crate::specs::Codes::single))]
fn single_code(v: u8) -> Code
    requires { v < 8 }
    ensures { result ≡ single v }
{
    Code {
        months: 6 * (u32::from(v) + 1),
        mark: Mark::Leaps(Sign::Positive),
        size: 1,
    }
}

// The code of a nybble 1MNP with its G, which has that many nybbles.
#[tactic(auto, unfolding(crate::specs::Codes::wide))]
fn wide_code(n: u8, g: u8, size: usize) -> Code
    requires { g < 16 }
    ensures { result ≡ wide n g size }
{
    let count = u32::from(g) + 1;
    let months = if n / 4 % 2 == Unit::Months as u8 {
        count
    } else {
        6 * count
    };
    Code {
        months,
        mark: Mark::of_np(n % 4),
        size,
    }
}

// The nybble at a place: the upper half of a byte comes first.
fn nybble_at(bytes: &[u8], at: usize) -> u8
    requires { at < length (nybbles bytes.now) }
    ensures { (result ≡ get_or (nybbles bytes.now) at 0) × (result < 16) }
{
    let b = bytes[at / 2];
    if at % 2 == 0 { b / 16 } else { b % 16 }
}

// The code that starts at a place.
pub(crate) fn code_at(bytes: &[u8], at: usize) -> Code
    requires { (at ≤ 2 * last_month) × (at < length (nybbles bytes.now)) }
    ensures { Next bytes.now at result }
{
    let n = nybble_at(bytes, at);
    if n < 8 {
        return single_code(n);
    }
    let next = at + 1;
    if next / 2 < bytes.len() {
        return wide_code(n, nybble_at(bytes, next), 2);
    }
    wide_code(n, LAST_G, 1)
}
