// Fields that are hex.
ghost use Rattle.std.specs.Prelude.{◌≡◌, ◌≤◌, true, false, length, MatchOption};
ghost use Rattle.ascii.specs.Hex.{is_hex, unhex};
ghost use Rattle.schedule.specs.Answers.{ReadsInto};
ghost use Rattle.nybbles.specs.Read.{read_nybbles};
ghost use Rattle.command.specs.Answer.{max_line};

use crate::MAX_LINE;
use ascii::hex::is_hex;
use ascii::output::Output;
use schedule::ParseError;

// A field that is hex and no longer than a line.
#[derive(Clone, Copy)]
pub(crate) struct Hex<'a> {
    pub digits: &'a [u8],
    pub ghost short: { length digits.now ≤ max_line },
}

impl<'a> Hex<'a> {
    // A field, if it is hex.
    pub(crate) fn of(field: &'a [u8]) -> Option<Hex<'a>>
        requires { length field.now ≤ max_line }
        ensures { MatchOption result (is_hex field.now ≡ false) (λ hex. (is_hex field.now ≡ true) × (hex.digits.now ≡ field.now)) }
    {
        if is_hex(field) {
            return Some(Hex { digits: field });
        }
        None
    }

    // Reads the bytes that it stands for, as a nybble list, into its words.
    pub(crate) fn read(self, words: &mut [u32; 514]) -> Result<(), ParseError>
        ensures { ReadsInto (read_nybbles (unhex self.entry.digits.now)) result words.new }
    {
        let mut room = [0u8; MAX_LINE / 2];
        let mut bytes = Output::new(&mut room, false);
        bytes.put_unhex(self.digits);
        let n = bytes.at;
        nybbles::read_nybbles(&room[..n], words)
    }
}
