// Answers about a list as its stretches of constant DTAI, and about a nybble list, in hex, as text.
ghost use Rattle.std.specs.Prelude.{◌≡◌, true};
ghost use Rattle.ascii.specs.Output.{PutsUpTo};
ghost use Rattle.ascii.specs.Hex.{unhex};
ghost use Rattle.schedule.specs.Schedule.{leaves_gap, well_formed};
ghost use Rattle.schedule.specs.WordLayout.{meant};
ghost use Rattle.text.specs.Write.{text_of};
ghost use Rattle.nybbles.specs.Read.{read_nybbles};
ghost use Rattle.show.specs.Show.{shown};
ghost use Rattle.answers.specs.Lists.{about_list, about_read};
ghost use Rattle.command.specs.Answer.{max_answer};

use crate::hex::Hex;
use answers::lists::read_list;
use ascii::output::Output;

// Puts the answer about a list as its stretches of constant DTAI.
pub(crate) fn put_list_shown(out: &mut Output<'_>, list: &[u8])
    ensures { PutsUpTo max_answer out.old out.new (about_list list.now (shown out.old.lines)) }
{
    let mut words = [0u32; 514];
    match read_list(list, &mut words) {
        Ok(()) => show::put_shown(out, &words),
        Err(error) => out.put_refusal_at(error.refusal, error.place),
    }
}

// Puts a list as text.
fn put_text(out: &mut Output<'_>, words: &[u32; 514])
    requires { (well_formed (meant words.now) ≡ true) × (leaves_gap (meant words.now) ≡ true) }
    ensures { PutsUpTo 1028 out.old out.new (text_of (meant words.now)) }
{
    let mut bytes = [0u8; 1028];
    let n = text::write_text(words, &mut bytes).unwrap();
    out.put_all(&bytes[..n]);
}

// Puts the answer about a nybble list, in hex, as text.
pub(crate) fn put_hex_as_text(out: &mut Output<'_>, hex: Hex<'_>)
    ensures { PutsUpTo 1028 out.old out.new (about_read (read_nybbles (unhex hex.entry.digits.now)) text_of) }
{
    let mut words = [0u32; 514];
    match hex.read(&mut words) {
        Ok(()) => put_text(out, &words),
        Err(error) => out.put_refusal_at(error.refusal, error.place),
    }
}
