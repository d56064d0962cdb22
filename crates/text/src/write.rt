// The text of a list.
ghost use Rattle.std.specs.Prelude.{◌≡◌, ◌+◌, ◌≤◌, length};
ghost use Rattle.ascii.specs.Output.{Puts};
ghost use Rattle.schedule.specs.Schedule.{max_gap};
ghost use Rattle.schedule.specs.WordLayout.{meant};
ghost use Rattle.text.specs.Write.{digits, marked, text_of};

use crate::sign_byte;
use ascii::output::Output;
use schedule::WritableList;

// How many bytes a gap and its mark are.
fn marked_len(gap: u32) -> usize
    requires { gap ≤ max_gap }
    ensures { result ≡ length (digits gap) + 1 }
{
    match gap {
        0..=9 => 2,
        10..=99 => 3,
        _ => 4,
    }
}

// Puts a gap and its mark. By cases, since a gap has three digits at the most.
fn put_marked(out: &mut Output<'_>, gap: u32, mark: u8)
    requires { gap ≤ max_gap }
    ensures { Puts out.old out.new (marked gap mark) }
{
    let n = u64::from(gap);
    match gap {
        0..=9 => out.put(b'0' + gap as u8),
        10..=99 => out.put_pair(n),
        _ => {
            out.put(b'0' + (gap / 100) as u8);
            out.put_pair(n);
        }
    }
    out.put(mark);
}

// The length of the text of a list whose expiry is rounded down to a month.
pub(crate) fn text_len(can: WritableList<'_>) -> usize
    ensures { result ≡ length (text_of (meant can.entry.list.words.now)) }
{
    let list = can.list;
    let mut len: usize = 0;
    let mut last: u32 = 0;
    for leap in list.leaps() {
        len += marked_len(leap.month - last);
        last = leap.month;
    }
    len + marked_len(list.expiry_month() - last)
}

// Puts the text of a list whose expiry is rounded down to a month.
pub(crate) fn put_text(out: &mut Output<'_>, can: WritableList<'_>)
    ensures { Puts out.old out.new (text_of (meant can.entry.list.words.now)) }
{
    let list = can.list;
    let mut last: u32 = 0;
    for leap in list.leaps() {
        put_marked(out, leap.month - last, sign_byte(leap.sign));
        last = leap.month;
    }
    put_marked(out, list.expiry_month() - last, b'?');
}
