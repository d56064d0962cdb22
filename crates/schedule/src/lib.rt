// A list of leap seconds in code: the 514 words of the C struct, lent. What they mean is a schedule of the definitions; here they are checked and
// read, and what readers and writers of them answer is told.
#![tactic(auto)]

ghost use Rattle.std.specs.Prelude.{◌≡◌, min, ◌&&◌};
ghost use Rattle.refusals.specs.Refusals.{number_of};
ghost use Rattle.schedule.specs.Schedule.{last_month, month_start, month_of, is_expired, well_formed};
ghost use Rattle.schedule.specs.Extends.{extends};
ghost use Rattle.schedule.specs.WordLayout.{count_word, expiry_word, month_word, sign_word, sign_of, meant, word_of_sign};
ghost use Rattle.schedule.specs.Answers.{refusal, ReadsInto, HandsReading};

mod check; // check.rt: the faults of words that are not those of a well-formed schedule
pub mod leaps; // leaps.rt: the leaps of a list, one after the other
pub mod list; // list.rt: words that are known to be a list

pub use leaps::Leaps;
pub use list::{List, WritableList, writable};
use refusals::Refusal;

// A schedule has at most 256 leaps.
pub const MAX_LEAPS: usize = 256;

// A gap is at most 999 months.
pub const MAX_GAP: u32 = 999;

// Month numbers run to 2400.
pub const LAST_MONTH: u32 = calendar::LAST_MONTH as u32;

// Month 0 starts on this day; an expiry is later.
const FIRST_DAY: u32 = calendar::FIRST_DAY as u32;

// Month 2400 starts on this day; an expiry is no later.
pub const END_DAY: u32 = calendar::END_DAY as u32;

#[derive(Clone, Copy, Debug, PartialEq, Eq)]
pub enum Sign {
    Positive,
    Negative,
}

// A leap: the month at whose start it takes effect, and its sign.
#[derive(Clone, Copy, Debug, PartialEq, Eq)]
pub struct Leap {
    pub month: u32,
    pub sign: Sign,
}

// Why a list does not read, and where.
#[derive(Clone, Copy, Debug, PartialEq, Eq)]
pub struct ParseError {
    pub refusal: Refusal,
    pub place: usize,
}

impl From<ParseError> for Refusal {
    ghost from_gives = { λ error why. why ≡ error.refusal };

    fn from(error: ParseError) -> Refusal {
        error.refusal
    }
}

impl From<u32> for Sign {
    ghost from_gives = { λ word sign. sign ≡ sign_of word };

    fn from(word: u32) -> Sign {
        if word == 0 {
            Sign::Positive
        } else {
            Sign::Negative
        }
    }
}

impl From<Sign> for u32 {
    ghost from_gives = { λ sign word. word ≡ word_of_sign sign };

    fn from(sign: Sign) -> u32 {
        match sign {
            Sign::Positive => 0,
            Sign::Negative => 1,
        }
    }
}

// How many leaps the words claim.
pub fn count_of(words: &[u32; 514]) -> usize
    ensures { result ≡ count_word words.now }
{
    words[512] as usize
}

// The month of leap i, 0 where there is no such place.
pub fn month_at(words: &[u32; 514], i: usize) -> u32
    ensures { result ≡ month_word words.now i }
{
    if MAX_LEAPS <= i {
        return 0;
    }
    words[2 * i]
}

// The sign of leap i, positive where there is no such place.
pub fn sign_at(words: &[u32; 514], i: usize) -> Sign
    ensures { result ≡ sign_of (sign_word words.now i) }
{
    if MAX_LEAPS <= i {
        return Sign::Positive;
    }
    Sign::from(words[2 * i + 1])
}

// The day on which the list expires.
pub fn expiry_of(words: &[u32; 514]) -> u32
    ensures { result ≡ expiry_word words.now }
{
    words[513]
}

// A reader's refusal, and the words of the blank schedule.
pub fn refuse(why: Refusal, place: usize, out: &mut [u32; 514]) -> Result<(), ParseError>
    ensures { ReadsInto (refusal (number_of why) place) result out.new }
{
    *out = [0u32; 514];
    Err(ParseError {
        refusal: why,
        place,
    })
}

// A reader's refusal handed over, by any number: the number, the place and the words of the blank schedule.
pub fn hand_refusal(number: u8, at: usize, out: &mut [u32; 514], place: &mut u64) -> u8
    ensures { HandsReading (refusal number at) result out.new place.new }
{
    *out = [0; 514];
    *place = at as u64;
    number
}

// Whether words are those of a well-formed schedule; any words at all may be given.
pub fn is_list(words: &[u32; 514]) -> bool
    ensures { result ≡ well_formed (meant words.now) }
{
    if 256 < words[512] {
        return false;
    }
    if END_DAY < words[513] {
        return false;
    }
    if check::leaps_fit(words) {
        check::rest_clear(words)
    } else {
        false
    }
}

// The expiry of a list that expires at a month: that month's first day. A month past 2400 gets the first day of month 2400.
pub fn expiry_at(month: u32) -> u32
    ensures { result ≡ month_start (min month last_month) }
{
    if LAST_MONTH < month {
        return END_DAY;
    }
    calendar::first_day(month as u16) as u32
}

// The month to which the writers round the expiry down.
pub fn expiry_month(words: &[u32; 514]) -> u32
    ensures { result ≡ month_of (expiry_word words.now) }
{
    u32::from(calendar::latest_month(u64::from(words[513])))
}

// Whether a month is at or after an expiry. A month past 2400 is taken as month 2400.
pub fn is_expired(expiry: u32, month: u32) -> bool
    ensures { result ≡ is_expired expiry (min month last_month) }
{
    expiry <= expiry_at(month)
}

// Whether both are lists and the first extends the second; any words at all may be given.
pub fn extends(longer: &[u32; 514], shorter: &[u32; 514]) -> bool
    ensures { result ≡ (well_formed (meant longer.now) && well_formed (meant shorter.now) && extends (meant longer.now) (meant shorter.now)) }
{
    let Ok(longer) = List::of(longer) else {
        return false;
    };
    let Ok(shorter) = List::of(shorter) else {
        return false;
    };
    longer.extends(shorter)
}
