// The C library: each function of the crate leap under its own name, for C. include/leap.h says what each answers.
#![tactic(auto)]

ghost use Rattle.std.specs.Prelude.{length, pos};
ghost use Rattle.text.specs.Read.{read_text};
ghost use Rattle.text.specs.Write.{text_of};
ghost use Rattle.nybbles.specs.Read.{read_nybbles};
ghost use Rattle.nybbles.specs.Write.{nybbles_of};
ghost use Rattle.compare.specs.Compare.{comparing, compared_into};
ghost use Rattle.compare.specs.Longer.{chosen, HandsBack};
ghost use mathlib.Core.List.{map, zip_with};
ghost use Rattle.clock.specs.Answers.{HandsValue, HandsUtc};
ghost use Rattle.many.specs.Many.{HandsMany, HandsManyUtc};
ghost use Rattle.clock.specs.Question.{dtai_on, utc_to_tai, tai_to_utc, utc_to_uts, uts_to_utc};
ghost use Rattle.schedule.specs.WordLayout.{meant};
ghost use Rattle.schedule.specs.Answers.{HandsReading};
ghost use Rattle.schedule.specs.Answers.{fitting, fitted};
ghost use Rattle.replay.specs.Replay.{unended};
ghost use Rattle.leap.specs.Calls.{HandsBytes, HandsWriting, HandsReplay, extension};

// Reads a compact text list.
#[unsafe(no_mangle)]
pub extern "C" fn leap_read_text(bytes: &[u8], out: &mut [u32; 514], place: &mut u64) -> u8
    ensures { HandsReading (read_text bytes.now) result out.new place.new }
{
    leap::leap_read_text(bytes, out, place)
}

// Writes the compact text list of a schedule.
#[unsafe(no_mangle)]
pub extern "C" fn leap_write_text(words: &[u32; 514], out: &mut [u8], count: &mut u64) -> u8
    ensures { HandsWriting (meant words.now) (text_of (meant words.now)) out.old result count.new out.new }
{
    leap::leap_write_text(words, out, count)
}

// Reads a nybble list.
#[unsafe(no_mangle)]
pub extern "C" fn leap_read_nybbles(bytes: &[u8], out: &mut [u32; 514], place: &mut u64) -> u8
    ensures { HandsReading (read_nybbles bytes.now) result out.new place.new }
{
    leap::leap_read_nybbles(bytes, out, place)
}

// Writes the nybble list of a schedule.
#[unsafe(no_mangle)]
pub extern "C" fn leap_write_nybbles(words: &[u32; 514], out: &mut [u8], count: &mut u64) -> u8
    ensures { HandsWriting (meant words.now) (nybbles_of (meant words.now)) out.old result count.new out.new }
{
    leap::leap_write_nybbles(words, out, count)
}

// Compares two text lists.
#[unsafe(no_mangle)]
pub extern "C" fn leap_compare_text(
    first: &[u8],
    second: &[u8],
    out: &mut [u8],
    count: &mut u64,
) -> u8
    ensures { HandsBytes (comparing first.now second.now (length out.old)) (compared_into first.now second.now out.old) result count.new out.new }
{
    leap::leap_compare_text(first, second, out, count)
}

// Hands back the caller's own bytes of the longer of two text lists.
#[unsafe(no_mangle)]
pub extern "C" fn leap_longer_text<'a>(first: &'a [u8], second: &'a [u8], part: &mut &'a [u8]) -> u8
    ensures { HandsBack (chosen first.now second.now) first.entry second.entry part.new result }
{
    leap::leap_longer_text(first, second, part)
}

// Whether a list extends another.
#[unsafe(no_mangle)]
pub extern "C" fn leap_extends(longer: &[u32; 514], shorter: &[u32; 514], yes: &mut u8) -> u8
    ensures { HandsValue 0 (extension (meant longer.now) (meant shorter.now)) result yes.new }
{
    leap::leap_extends(longer, shorter, yes)
}

// DTAI for a date.
#[unsafe(no_mangle)]
pub extern "C" fn leap_dtai(words: &[u32; 514], mjd: u64, dtai: &mut i32) -> u8
    ensures { HandsValue (pos 0) (dtai_on (meant words.now) mjd) result dtai.new }
{
    leap::leap_dtai(words, mjd, dtai)
}

// UTC to TAI.
#[unsafe(no_mangle)]
pub extern "C" fn leap_utc_to_tai(words: &[u32; 514], mjd: u64, micros: u64, tai: &mut u64) -> u8
    ensures { HandsValue 0 (utc_to_tai (meant words.now) mjd micros) result tai.new }
{
    leap::leap_utc_to_tai(words, mjd, micros, tai)
}

// TAI to UTC.
#[unsafe(no_mangle)]
pub extern "C" fn leap_tai_to_utc(
    words: &[u32; 514],
    tai: u64,
    mjd: &mut u64,
    micros: &mut u64,
) -> u8
    ensures { HandsUtc (tai_to_utc (meant words.now) tai) result mjd.new micros.new }
{
    leap::leap_tai_to_utc(words, tai, mjd, micros)
}

// UTC to smoothed time.
#[unsafe(no_mangle)]
pub extern "C" fn leap_utc_to_uts(words: &[u32; 514], mjd: u64, micros: u64, nanos: &mut u64) -> u8
    ensures { HandsValue 0 (utc_to_uts (meant words.now) mjd micros) result nanos.new }
{
    leap::leap_utc_to_uts(words, mjd, micros, nanos)
}

// Smoothed time to UTC.
#[unsafe(no_mangle)]
pub extern "C" fn leap_uts_to_utc(words: &[u32; 514], mjd: u64, nanos: u64, micros: &mut u64) -> u8
    ensures { HandsValue 0 (uts_to_utc (meant words.now) mjd nanos) result micros.new }
{
    leap::leap_uts_to_utc(words, mjd, nanos, micros)
}

// DTAI for many dates.
#[unsafe(no_mangle)]
pub extern "C" fn leap_dtai_many(
    words: &[u32; 514],
    mjd: &[u64],
    numbers: &mut [u8],
    dtai: &mut [i32],
) -> u64
    ensures { HandsMany (pos 0) (map (dtai_on (meant words.now)) mjd.now) numbers.old dtai.old result numbers.new dtai.new }
{
    leap::leap_dtai_many(words, mjd, numbers, dtai)
}

// UTC to TAI for many instants.
#[unsafe(no_mangle)]
pub extern "C" fn leap_utc_to_tai_many(
    words: &[u32; 514],
    mjd: &[u64],
    micros: &[u64],
    numbers: &mut [u8],
    tai: &mut [u64],
) -> u64
    ensures { HandsMany 0 (zip_with (utc_to_tai (meant words.now)) mjd.now micros.now) numbers.old tai.old result numbers.new tai.new }
{
    leap::leap_utc_to_tai_many(words, mjd, micros, numbers, tai)
}

// TAI to UTC for many.
#[unsafe(no_mangle)]
pub extern "C" fn leap_tai_to_utc_many(
    words: &[u32; 514],
    tai: &[u64],
    numbers: &mut [u8],
    mjd: &mut [u64],
    micros: &mut [u64],
) -> u64
    ensures { HandsManyUtc (map (tai_to_utc (meant words.now)) tai.now) numbers.old mjd.old micros.old result numbers.new mjd.new micros.new }
{
    leap::leap_tai_to_utc_many(words, tai, numbers, mjd, micros)
}

// UTC to smoothed time for many instants.
#[unsafe(no_mangle)]
pub extern "C" fn leap_utc_to_uts_many(
    words: &[u32; 514],
    mjd: &[u64],
    micros: &[u64],
    numbers: &mut [u8],
    nanos: &mut [u64],
) -> u64
    ensures { HandsMany 0 (zip_with (utc_to_uts (meant words.now)) mjd.now micros.now) numbers.old nanos.old result numbers.new nanos.new }
{
    leap::leap_utc_to_uts_many(words, mjd, micros, numbers, nanos)
}

// Smoothed time to UTC for many instants.
#[unsafe(no_mangle)]
pub extern "C" fn leap_uts_to_utc_many(
    words: &[u32; 514],
    mjd: &[u64],
    nanos: &[u64],
    numbers: &mut [u8],
    micros: &mut [u64],
) -> u64
    ensures { HandsMany 0 (zip_with (uts_to_utc (meant words.now)) mjd.now nanos.now) numbers.old micros.old result numbers.new micros.new }
{
    leap::leap_uts_to_utc_many(words, mjd, nanos, numbers, micros)
}

// Replays the complete lines of a piece of a trace, from a current and a stored list.
#[unsafe(no_mangle)]
pub extern "C" fn leap_replay(
    current: &mut [u32; 514],
    stored: &mut [u32; 514],
    trace: &[u8],
    out: &mut [u8],
    used: &mut u64,
    written: &mut u64,
) -> u8
    ensures { HandsReplay (record { current = current.old; stored = stored.old }) trace.now out.old result (record { current = current.new; stored = stored.new }) out.new used.new written.new }
{
    leap::leap_replay(current, stored, trace, out, used, written)
}

// Ends a trace, by what stands after its last LF.
#[unsafe(no_mangle)]
pub extern "C" fn leap_replay_end(left: &[u8], out: &mut [u8], written: &mut u64) -> u8
    ensures { HandsBytes (fitting (unended left.now) (length out.old)) (fitted (unended left.now) out.old) result written.new out.new }
{
    leap::leap_replay_end(left, out, written)
}
