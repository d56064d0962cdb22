// The list that a field names, and the same list as nybbles.
ghost use Rattle.std.specs.Prelude.{◌≡◌, true};
ghost use Rattle.ascii.specs.Output.{PutsUpTo};
ghost use Rattle.ascii.specs.Hex.{hex};
ghost use Rattle.schedule.specs.Schedule.{leaves_gap, well_formed};
ghost use Rattle.schedule.specs.WordLayout.{meant};
ghost use Rattle.schedule.specs.Answers.{ReadsInto};
ghost use Rattle.text.specs.Read.{read_text};
ghost use Rattle.nybbles.specs.Write.{nybbles_of};
ghost use Rattle.answers.specs.Lists.{list_of, nybbles_answer};

use ascii::output::Output;
use schedule::ParseError;

// The embedded list.
const CURRENT: &[u8] =
    b"6+6+12+12+12+12+12+12+12+18+12+12+24+30+24+12+18+12+12+18+18+18+84+36+42+36+18+125?";

// The list that a field names: the embedded one for the word `current`, else the field itself.
#[tactic(auto, using(ascii::proofs::Names::names), unfolding(crate::specs::Lists::list_of))]
pub(crate) fn list_of(field: &[u8]) -> &[u8]
    ensures { result.now ≡ list_of field.now }
{
    match field {
        b"current" => CURRENT,
        _ => field,
    }
}

// Reads the list that a field names into its words.
pub fn read_list(field: &[u8], words: &mut [u32; 514]) -> Result<(), ParseError>
    ensures { ReadsInto (read_text (list_of field.now)) result words.new }
{
    text::read_text(list_of(field), words)
}

// Puts a list as nybbles, in hex.
fn put_nybbles(out: &mut Output<'_>, words: &[u32; 514])
    requires { (well_formed (meant words.now) ≡ true) × (leaves_gap (meant words.now) ≡ true) }
    ensures { PutsUpTo 4800 out.old out.new (hex (nybbles_of (meant words.now))) }
{
    let mut bytes = [0u8; 2400];
    let n = nybbles::write_nybbles(words, &mut bytes).unwrap();
    out.put_hex(&bytes[..n]);
}

// Puts the answer about a list as nybbles.
pub fn put_list_nybbles(out: &mut Output<'_>, list: &[u8])
    ensures { PutsUpTo 4800 out.old out.new (nybbles_answer list.now) }
{
    let mut words = [0u32; 514];
    match read_list(list, &mut words) {
        Ok(()) => put_nybbles(out, &words),
        Err(error) => out.put_refusal_at(error.refusal, error.place),
    }
}
