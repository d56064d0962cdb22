// The calls of the C interface, which the crate leap_c hands to C under the same names. A schedule is the C struct leap_schedule, 514 words; include/leap.h says what each function answers.
#![tactic(auto)]

ghost use Rattle.std.specs.Prelude.{◌≡◌, length, pos};
ghost use Rattle.text.specs.Read.{read_text};
ghost use Rattle.text.specs.Write.{text_of};
ghost use Rattle.nybbles.specs.Read.{read_nybbles};
ghost use Rattle.nybbles.specs.Write.{nybbles_of};
ghost use Rattle.compare.specs.Compare.{comparing, compared_into};
ghost use Rattle.compare.specs.Longer.{chosen, HandsBack};
ghost use mathlib.Core.List.{map, zip_with};
ghost use Rattle.refusals.specs.Answer.{answer_of};
ghost use Rattle.clock.specs.Answers.{HandsValue, HandsUtc};
ghost use Rattle.many.specs.Many.{HandsMany, HandsManyUtc};
ghost use Rattle.clock.specs.Question.{dtai_on, utc_to_tai, tai_to_utc, utc_to_uts, uts_to_utc};
ghost use Rattle.schedule.specs.WordLayout.{meant};
ghost use Rattle.schedule.specs.Answers.{HandsReading, number_in, place_in, fitting, fitted};
ghost use Rattle.replay.specs.Replay.{unended};
ghost use Rattle.leap.specs.Calls.{HandsBytes, HandsWriting, HandsReplay, extension};

use clock::{TaiMicros, UtcMicros, UtsNanos};
use refusals::Refusal;
use schedule::{List, ParseError};

// Hands an answer over: its number, and its value, or `zero` where it is refused.
fn hand<T: Copy>(answer: Result<T, Refusal>, zero: T, value: &mut T) -> u8
    ensures { HandsValue zero (answer_of answer) result value.new }
{
    match answer {
        Ok(given) => {
            *value = given;
            0
        }
        Err(refusal) => {
            *value = zero;
            refusal.number()
        }
    }
}

// Hands over what a writer answers: its number and its count of bytes.
fn hand_count(written: Result<usize, Refusal>, count: &mut u64) -> u8
    ensures { HandsValue 0 (answer_of written) result count.new }
{
    hand(written.map(|n| n as u64), 0, count)
}

// Hands over what a reader answers: its number and its place.
fn hand_place(read: Result<(), ParseError>, place: &mut u64) -> u8
    ensures number { result ≡ number_in read }
    ensures place { place.new ≡ place_in read }
{
    match read {
        Ok(()) => {
            *place = 0;
            0
        }
        Err(error) => {
            *place = error.place as u64;
            error.refusal.number()
        }
    }
}

// Reads a compact text list.
pub fn leap_read_text(bytes: &[u8], out: &mut [u32; 514], place: &mut u64) -> u8
    ensures { HandsReading (read_text bytes.now) result out.new place.new }
{
    hand_place(text::read_text(bytes, out), place)
}

// Writes the compact text list of a schedule.
pub fn leap_write_text(words: &[u32; 514], out: &mut [u8], count: &mut u64) -> u8
    ensures { HandsWriting (meant words.now) (text_of (meant words.now)) out.old result count.new out.new }
{
    hand_count(text::write_text(words, out), count)
}

// Reads a nybble list.
pub fn leap_read_nybbles(bytes: &[u8], out: &mut [u32; 514], place: &mut u64) -> u8
    ensures { HandsReading (read_nybbles bytes.now) result out.new place.new }
{
    hand_place(nybbles::read_nybbles(bytes, out), place)
}

// Writes the nybble list of a schedule.
pub fn leap_write_nybbles(words: &[u32; 514], out: &mut [u8], count: &mut u64) -> u8
    ensures { HandsWriting (meant words.now) (nybbles_of (meant words.now)) out.old result count.new out.new }
{
    hand_count(nybbles::write_nybbles(words, out), count)
}

// Compares two text lists.
pub fn leap_compare_text(first: &[u8], second: &[u8], out: &mut [u8], count: &mut u64) -> u8
    ensures { HandsBytes (comparing first.now second.now (length out.old)) (compared_into first.now second.now out.old) result count.new out.new }
{
    hand_count(compare::lines::compare_text(first, second, out), count)
}

// Hands back the caller's own bytes of the longer of two text lists.
pub fn leap_longer_text<'a>(first: &'a [u8], second: &'a [u8], part: &mut &'a [u8]) -> u8
    ensures { HandsBack (chosen first.now second.now) first.entry second.entry part.new result }
{
    let mut number: u8 = 0;
    *part = compare::longer::longer(first, second, &mut number);
    number
}

// 1 where the first list extends the second, else 0; 11 unless both are lists.
#[tactic(auto, unfolding(crate::specs::Calls::extension))]
fn extends_as_byte(longer: &[u32; 514], shorter: &[u32; 514]) -> Result<u8, Refusal>
    ensures { answer_of result ≡ extension (meant longer.now) (meant shorter.now) }
{
    let longer = List::of(longer)?;
    let shorter = List::of(shorter)?;
    Ok(u8::from(longer.extends(shorter)))
}

// Whether a list extends another.
pub fn leap_extends(longer: &[u32; 514], shorter: &[u32; 514], yes: &mut u8) -> u8
    ensures { HandsValue 0 (extension (meant longer.now) (meant shorter.now)) result yes.new }
{
    hand(extends_as_byte(longer, shorter), 0, yes)
}

// DTAI for a date.
pub fn leap_dtai(words: &[u32; 514], mjd: u64, dtai: &mut i32) -> u8
    ensures { HandsValue (pos 0) (dtai_on (meant words.now) mjd) result dtai.new }
{
    hand(questions::dtai(words, mjd), 0, dtai)
}

// UTC to TAI.
pub fn leap_utc_to_tai(words: &[u32; 514], mjd: u64, micros: u64, tai: &mut u64) -> u8
    ensures { HandsValue 0 (utc_to_tai (meant words.now) mjd micros) result tai.new }
{
    let answer = questions::utc_to_tai(words, mjd, UtcMicros(micros));
    hand(answer.map(|TaiMicros(n)| n), 0, tai)
}

// TAI to UTC.
pub fn leap_tai_to_utc(words: &[u32; 514], tai: u64, mjd: &mut u64, micros: &mut u64) -> u8
    ensures { HandsUtc (tai_to_utc (meant words.now) tai) result mjd.new micros.new }
{
    match questions::tai_to_utc(words, TaiMicros(tai)) {
        Ok(instant) => {
            *mjd = instant.day;
            *micros = instant.micros.0;
            0
        }
        Err(refusal) => {
            *mjd = 0;
            *micros = 0;
            refusal.number()
        }
    }
}

// UTC to smoothed time.
pub fn leap_utc_to_uts(words: &[u32; 514], mjd: u64, micros: u64, nanos: &mut u64) -> u8
    ensures { HandsValue 0 (utc_to_uts (meant words.now) mjd micros) result nanos.new }
{
    let answer = questions::utc_to_uts(words, mjd, UtcMicros(micros));
    hand(answer.map(|UtsNanos(n)| n), 0, nanos)
}

// Smoothed time to UTC.
pub fn leap_uts_to_utc(words: &[u32; 514], mjd: u64, nanos: u64, micros: &mut u64) -> u8
    ensures { HandsValue 0 (uts_to_utc (meant words.now) mjd nanos) result micros.new }
{
    let answer = questions::uts_to_utc(words, mjd, UtsNanos(nanos));
    hand(answer.map(|UtcMicros(n)| n), 0, micros)
}

// DTAI for many dates.
pub fn leap_dtai_many(words: &[u32; 514], mjd: &[u64], numbers: &mut [u8], dtai: &mut [i32]) -> u64
    ensures { HandsMany (pos 0) (map (dtai_on (meant words.now)) mjd.now) numbers.old dtai.old result numbers.new dtai.new }
{
    many::dtai(words, mjd, numbers, dtai)
}

// UTC to TAI for many instants.
pub fn leap_utc_to_tai_many(
    words: &[u32; 514],
    mjd: &[u64],
    micros: &[u64],
    numbers: &mut [u8],
    tai: &mut [u64],
) -> u64
    ensures { HandsMany 0 (zip_with (utc_to_tai (meant words.now)) mjd.now micros.now) numbers.old tai.old result numbers.new tai.new }
{
    many::utc_to_tai(words, mjd, micros, numbers, tai)
}

// TAI to UTC for many.
pub fn leap_tai_to_utc_many(
    words: &[u32; 514],
    tai: &[u64],
    numbers: &mut [u8],
    mjd: &mut [u64],
    micros: &mut [u64],
) -> u64
    ensures { HandsManyUtc (map (tai_to_utc (meant words.now)) tai.now) numbers.old mjd.old micros.old result numbers.new mjd.new micros.new }
{
    many::tai_to_utc(words, tai, numbers, mjd, micros)
}

// UTC to smoothed time for many instants.
pub fn leap_utc_to_uts_many(
    words: &[u32; 514],
    mjd: &[u64],
    micros: &[u64],
    numbers: &mut [u8],
    nanos: &mut [u64],
) -> u64
    ensures { HandsMany 0 (zip_with (utc_to_uts (meant words.now)) mjd.now micros.now) numbers.old nanos.old result numbers.new nanos.new }
{
    many::utc_to_uts(words, mjd, micros, numbers, nanos)
}

// Smoothed time to UTC for many instants.
pub fn leap_uts_to_utc_many(
    words: &[u32; 514],
    mjd: &[u64],
    nanos: &[u64],
    numbers: &mut [u8],
    micros: &mut [u64],
) -> u64
    ensures { HandsMany 0 (zip_with (uts_to_utc (meant words.now)) mjd.now nanos.now) numbers.old micros.old result numbers.new micros.new }
{
    many::uts_to_utc(words, mjd, nanos, numbers, micros)
}

// Replays the complete lines of a piece of a trace, from a current and a stored list.
pub fn leap_replay(
    current: &mut [u32; 514],
    stored: &mut [u32; 514],
    trace: &[u8],
    out: &mut [u8],
    used: &mut u64,
    written: &mut u64,
) -> u8
    ensures { HandsReplay (record { current = current.old; stored = stored.old }) trace.now out.old result (record { current = current.new; stored = stored.new }) out.new used.new written.new }
{
    let room = out.len();
    let step = replay::replay(current, stored, trace, out);
    *used = step.used as u64;
    *written = step.written as u64;
    if room < replay::MAX_PRINTED {
        return Refusal::OutputShort.number();
    }
    0
}

// Ends a trace, by what stands after its last LF.
pub fn leap_replay_end(left: &[u8], out: &mut [u8], written: &mut u64) -> u8
    ensures { HandsBytes (fitting (unended left.now) (length out.old)) (fitted (unended left.now) out.old) result written.new out.new }
{
    hand_count(replay::replay_end(left, out), written)
}
