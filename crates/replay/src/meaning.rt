// What a line of a trace says.
ghost use Rattle.std.specs.Prelude.{◌≡◌};
ghost use Rattle.ascii.specs.Parts.{parts};
ghost use Rattle.ascii.specs.Lines.{space_byte};
ghost use Rattle.replay.specs.Trace.{short_number, question_of, line_of, meaning};
ghost use Rattle.replay.specs.Private.{said};

use ascii::decimal::read_decimal;
use ascii::parts::split_once;
use clock::UtcMicros;

// The most bytes of a line before its LF.
const MAX_LINE: usize = 4096;

// The most digits of a number.
const MAX_DIGITS: usize = 18;

// What a line says: use a list, store the current one, go back to the stored one, or a question about an instant.
#[derive(Clone, Copy)]
pub(crate) enum Said<'a> {
    Use(&'a [u8]),
    Store,
    Reset,
    Ask(u64, UtcMicros),
}

// The number of a field, of at most 18 digits.
#[tactic(auto, unfolding(crate::specs::Trace::short_number))]
fn short_number(field: &[u8]) -> Option<u64>
    ensures { result ≡ short_number field.now }
{
    if MAX_DIGITS < field.len() {
        return None;
    }
    read_decimal(field)
}

// What `Q` says with what follows its space. A third field needs no look of its own: the space before it is no digit of the second.
#[tactic(auto, using(crate::proofs::Saying::two_fields, crate::proofs::Saying::one_field))]
fn question_of(bytes: &[u8]) -> Option<Said<'_>>
    ensures { said result ≡ question_of (parts space_byte bytes.now) }
{
    let (day, t) = split_once(bytes, b' ')?;
    Some(Said::Ask(short_number(day)?, UtcMicros(short_number(t)?)))
}

// What a line of any length says.
fn line_of(line: &[u8]) -> Option<Said<'_>>
    ensures { said result ≡ line_of line.now }
{
    match line {
        b"S" => Some(Said::Store),
        b"Z" => Some(Said::Reset),
        [b'L', b' ', list @ ..] => Some(Said::Use(list)),
        [b'Q', b' ', fields @ ..] => question_of(fields),
        _ => None,
    }
}

// What a line says, without its LF.
#[tactic(auto, unfolding(crate::specs::Trace::meaning))]
pub(crate) fn meaning(line: &[u8]) -> Option<Said<'_>>
    ensures { said result ≡ meaning line.now }
{
    if MAX_LINE < line.len() {
        return None;
    }
    line_of(line)
}
