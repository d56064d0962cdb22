// The reader and the writer of the compact text list.
#![tactic(auto)]

ghost use Rattle.std.specs.Prelude.{◌≡◌, ◌≤◌, Err, length, drop};
ghost use Rattle.refusals.specs.Answer.{answer_of};
ghost use Rattle.schedule.specs.Schedule.{Schedule};
ghost use Rattle.schedule.specs.WordLayout.{meant};
ghost use Rattle.schedule.specs.Private.{SoFar};
ghost use Rattle.schedule.specs.Answers.{writing, written, ReadsInto};
ghost use Rattle.text.specs.Bytes.{is_digit, mark_of, sign_byte};
ghost use Rattle.text.specs.Read.{stopped, read_from, read_text};
ghost use Rattle.text.specs.Write.{text_of};
ghost use Rattle.text.specs.Private.{Ends, Scanned, Due};

mod write; // write.rt: the text of a list

use ascii::output::Output;
use refusals::Refusal;
use schedule::{ParseError, Sign};
use write::{put_text, text_len};

// No list has a longer text.
const MAX_TEXT: usize = 752;

#[derive(Clone, Copy)]
struct Cursor {
    pub at: usize,
}

// What stands where a gap is due: a gap in months, with the cursor past its digits, or why there is none, and where.
#[derive(Clone, Copy)]
enum Gap {
    Months(u32, Cursor),
    Ended(Cursor),
    Misplaced(Cursor),
    Malformed(Cursor),
}

// A mark: a leap, or the expiry.
#[derive(Clone, Copy)]
enum Mark {
    Leaps(Sign),
    Expires,
}

// A refusal at a place.
fn refused(refusal: Refusal, place: usize) -> Result<(), ParseError>
    ensures { result ≡ Err (record { refusal = refusal; place = place }) }
{
    Err(ParseError { refusal, place })
}

fn is_digit(b: u8) -> bool
    ensures { result ≡ is_digit b }
{
    b.is_ascii_digit()
}

// The mark that a byte is, if it is one.
fn mark_of(b: u8) -> Option<Mark>
    ensures { result ≡ mark_of b }
{
    match b {
        b'+' => Some(Mark::Leaps(Sign::Positive)),
        b'-' => Some(Mark::Leaps(Sign::Negative)),
        b'?' => Some(Mark::Expires),
        _ => None,
    }
}

// The refusal where no gap was read.
fn stop(gap: Gap) -> Result<(), ParseError>
    ensures { result ≡ stopped gap }
{
    match gap {
        Gap::Ended(c) => refused(Refusal::EndsEarly, c.at),
        Gap::Misplaced(c) => refused(Refusal::NotAllowed, c.at),
        Gap::Malformed(c) => refused(Refusal::BadGap, c.at),
        Gap::Months(_, _) => Ok(()),
    }
}

// The digits of a gap, from a cursor where a gap is due.
fn scan_gap(bytes: &[u8], from: Cursor) -> Gap
    requires { from.at ≤ length bytes.now }
    ensures { Scanned bytes.now from.at result }
{
    let mut gap: u32 = 0;
    for at in from.at..bytes.len() {
        let b = bytes[at];
        if !is_digit(b) {
            if gap == 0 {
                return Gap::Misplaced(Cursor { at });
            }
            return Gap::Months(gap, Cursor { at });
        }
        let longer = gap * 10 + u32::from(b - b'0');
        if longer == 0 {
            return Gap::Malformed(Cursor { at });
        }
        if schedule::MAX_GAP < longer {
            return Gap::Malformed(Cursor { at });
        }
        gap = longer;
    }
    let end = Cursor { at: bytes.len() };
    if gap == 0 {
        return Gap::Ended(end);
    }
    Gap::Months(gap, end)
}

// Reads on where a gap is due, `total` months and `count` leaps behind, each leap stored in `words` as it is read. No schedule goes through
// the recursion: each level would copy it.
#[cycle(read_gap_read_mark)]
fn read_gap(
    bytes: &[u8],
    from: Cursor,
    total: u32,
    count: usize,
    words: &mut [u32; 514],
) -> Result<(), ParseError>
    requires { (from.at ≤ length bytes.now) × (total ≤ 2400) × (count ≤ 256) }
    ensures { (s : Schedule) → SoFar s count words.old → Ends (read_from 0 from.at total s (drop from.at bytes.now)) result words.new }
{
    let scanned = scan_gap(bytes, from);
    let Gap::Months(gap, next) = scanned else {
        return stop(scanned);
    };
    read_mark(bytes, next, gap, total, count, words)
}

// Reads on where a mark is due, after a gap.
#[cycle(read_gap_read_mark)]
fn read_mark(
    bytes: &[u8],
    from: Cursor,
    gap: u32,
    total: u32,
    count: usize,
    words: &mut [u32; 514],
) -> Result<(), ParseError>
    requires { Due bytes.now from.at gap × (total ≤ 2400) × (count ≤ 256) }
    ensures { (s : Schedule) → SoFar s count words.old → Ends (read_from gap from.at total s (drop from.at bytes.now)) result words.new }
{
    let at = from.at;
    if at == bytes.len() {
        return refused(Refusal::EndsEarly, at);
    }
    let Some(mark) = mark_of(bytes[at]) else {
        return refused(Refusal::NotAllowed, at);
    };
    let months = total + gap;
    if schedule::LAST_MONTH < months {
        return refused(Refusal::PastLastMonth, at);
    }
    let after = at + 1;
    match mark {
        Mark::Expires => {
            if after < bytes.len() {
                return refused(Refusal::AfterEnd, after);
            }
            words[512] = count as u32;
            words[513] = schedule::expiry_at(months);
            Ok(())
        }
        Mark::Leaps(sign) => {
            if schedule::MAX_LEAPS <= count {
                return refused(Refusal::TooManyLeaps, at);
            }
            words[2 * count] = months;
            words[2 * count + 1] = u32::from(sign);
            read_gap(bytes, Cursor { at: after }, months, count + 1, words)
        }
    }
}

// Reads a compact text list into the words of its schedule; any bytes may be given.
pub fn read_text(bytes: &[u8], out: &mut [u32; 514]) -> Result<(), ParseError>
    ensures { ReadsInto (read_text bytes.now) result out.new }
{
    *out = [0u32; 514];
    if let Err(why) = read_gap(bytes, Cursor { at: 0 }, 0, 0, out) {
        return schedule::refuse(why.refusal, why.place, out);
    }
    Ok(())
}

pub fn sign_byte(sign: Sign) -> u8
    ensures { result ≡ sign_byte sign }
{
    match sign {
        Sign::Positive => b'+',
        Sign::Negative => b'-',
    }
}

// Writes the compact text list of a schedule in words, and returns its length; any words and any output may be given.
pub fn write_text(words: &[u32; 514], out: &mut [u8]) -> Result<usize, Refusal>
    ensures { (answer_of result ≡ writing (meant words.now) (text_of (meant words.now)) (length out.old)) × (out.new ≡ written (meant words.now) (text_of (meant words.now)) out.old) }
{
    let can = schedule::writable(words)?;
    // A gap and its mark are at most four bytes. A list is measured only where that, or the longest list, does not fit.
    let most = (4 * can.list.count() + 4).min(MAX_TEXT);
    if out.len() < most && out.len() < text_len(can) {
        return Err(Refusal::OutputShort);
    }
    let mut output = Output::new(out, true);
    put_text(&mut output, can);
    Ok(output.at)
}
