// The nybble list: its reader and its writer.
#![tactic(auto)]

use crate::code::Mark;
use crate::progress::Progress;
use crate::spell::Spelling;
use refusals::Refusal;
use schedule::ParseError;

mod code; // code.rt: the codes of a list
mod pack; // pack.rt: written codes as bytes
mod progress; // progress.rt: what is read so far, and what a code makes of it
mod spell; // spell.rt: the written codes of a list
mod written; // written.rt: a written code

ghost use Rattle.std.specs.Prelude.{◌≡◌, length};
ghost use Rattle.refusals.specs.Answer.{answer_of};
ghost use Rattle.schedule.specs.WordLayout.{meant};
ghost use Rattle.schedule.specs.Answers.{writing, written, ReadsInto};
ghost use Rattle.nybbles.specs.Read.{read_nybbles};
ghost use Rattle.nybbles.specs.Write.{nybbles_of};

// Reads a nybble list into the words of its schedule; any bytes may be given. One pass, code by code: each code that passes has a month at
// least, so a list of any length is decided by its 2,401st code.
pub fn read_nybbles(bytes: &[u8], out: &mut [u32; 514]) -> Result<(), ParseError>
    ensures { ReadsInto (read_nybbles bytes.now) result out.new }
{
    *out = [0u32; 514];
    let mut p = Progress {
        gap: 0,
        total: 0,
        count: 0,
    };
    let mut at: usize = 0;
    while at / 2 < bytes.len() {
        let c = code::code_at(bytes, at);
        if let Err(why) = p.check(c) {
            return schedule::refuse(why, at, out);
        }
        at += c.size;
        p = p.after(c, out);
        if let Mark::Expires = c.mark {
            if at / 2 < bytes.len() {
                return schedule::refuse(Refusal::AfterEnd, at, out);
            }
            out[512] = p.count as u32;
            out[513] = schedule::expiry_at(p.total);
            return Ok(());
        }
    }
    schedule::refuse(Refusal::EndsEarly, at, out)
}

// Writes the nybble list of a list's words, in its one spelling, and returns its length; any words and any output may be given.
pub fn write_nybbles(words: &[u32; 514], out: &mut [u8]) -> Result<usize, Refusal>
    ensures { (answer_of result ≡ writing (meant words.now) (nybbles_of (meant words.now)) (length out.old)) × (out.new ≡ written (meant words.now) (nybbles_of (meant words.now)) out.old) }
{
    let list = schedule::writable(words)?;
    let spelling = Spelling::of(list);
    let count = spelling.nybble_count() / 2;
    if out.len() < count {
        return Err(Refusal::OutputShort);
    }
    pack::put_codes(spelling.codes(), out);
    Ok(count)
}
