// Where two lists part, in lines.
ghost use Rattle.std.specs.Prelude.{◌≡◌, ◌≤◌, length};
ghost use Rattle.refusals.specs.Answer.{answer_of};
ghost use Rattle.ascii.specs.Output.{PutsUpTo};
ghost use Rattle.ascii.specs.Lines.{between};
ghost use Rattle.schedule.specs.WordLayout.{meant};
ghost use Rattle.schedule.specs.Answers.{fitting, fitted};
ghost use Rattle.compare.specs.Compare.{relation_by, compared, comparing, compared_into, comparison_of};
ghost use Rattle.compare.specs.Private.{mark_line, differences, expiry_bytes, comparison};

use crate::cursor::{Cursor, PAST_MONTHS};
use crate::texts::TwoLists;
use ascii::output::Output;
use refusals::Refusal;

// The most bytes of a comparison in LF-ended lines: 510 lines of 9 for leaps and 2 of 8, 16 for the expiries and 11 for the last line.
const ROOM: usize = 4633;

// Puts a line for two marks that differ.
fn put_line(out: &mut Output<'_>, month: u32, x: u8, y: u8)
    requires { month ≤ 2400 }
    ensures { PutsUpTo 10 out.old out.new (mark_line (between out.old.lines) month x y) }
{
    if x == y {
        return;
    }
    out.put_decimal(u64::from(month));
    out.put(b' ');
    out.put(x);
    out.put(b' ');
    out.put(y);
    out.put_between();
}

// Puts how two lists stand to each other, by whether each extends the other.
fn put_relation(out: &mut Output<'_>, over: bool, under: bool)
    ensures { PutsUpTo 10 out.old out.new (relation_by over under) }
{
    match (over, under) {
        (true, true) => out.put_all(b"same"),
        (true, false) => out.put_all(b"extends 1"),
        (false, true) => out.put_all(b"extends 2"),
        (false, false) => out.put_all(b"contradict"),
    }
}

impl TwoLists<'_> {
    // Puts a line for each month at which either list has a leap and their marks differ.
    fn put_differences(self, out: &mut Output<'_>)
        ensures { PutsUpTo 5120 out.old out.new (differences (between out.old.lines) (meant self.entry.first.words.now) (meant self.entry.second.words.now)) }
    {
        let mut a = Cursor::of(self.first);
        let mut b = Cursor::of(self.second);
        let mut month = a.month().min(b.month());
        while month < PAST_MONTHS {
            put_line(out, month, a.mark(month), b.mark(month));
            a.pass(month);
            b.pass(month);
            month = a.month().min(b.month());
        }
    }

    // Puts `=` and both expiries where they differ.
    fn put_expiries(self, out: &mut Output<'_>)
        ensures { PutsUpTo 17 out.old out.new (expiry_bytes (between out.old.lines) (meant self.entry.first.words.now) (meant self.entry.second.words.now)) }
    {
        let first = self.first.expiry();
        let second = self.second.expiry();
        if first == second {
            return;
        }
        out.put_all(b"= ");
        out.put_two_numbers(u64::from(first), u64::from(second));
        out.put_between();
    }

    // Puts their comparison, LF between its lines or `; `.
    fn put(self, out: &mut Output<'_>)
        ensures { PutsUpTo 5147 out.old out.new (comparison out.old.lines (meant self.entry.first.words.now) (meant self.entry.second.words.now)) }
    {
        let over = self.first.extends(self.second);
        let under = self.second.extends(self.first);
        self.put_differences(out);
        self.put_expiries(out);
        put_relation(out, over, under);
    }

    // Writes their comparison in LF-ended lines; 7 where the output is too short for it, and then nothing is changed.
    fn write(self, out: &mut [u8]) -> Result<usize, Refusal>
        ensures { (answer_of result ≡ fitting (compared (meant self.entry.first.words.now) (meant self.entry.second.words.now)) (length out.old)) × (out.new ≡ fitted (compared (meant self.entry.first.words.now) (meant self.entry.second.words.now)) out.old) }
    {
        let mut bytes = [0u8; ROOM];
        let mut lines = Output::new(&mut bytes, true);
        self.put(&mut lines);
        lines.put(b'\n');
        let count = lines.at;
        if out.len() < count {
            return Err(Refusal::OutputShort);
        }
        Output::new(out, true).put_all(&lines.bytes[..count]);
        Ok(count)
    }
}

// Compares two text lists, in LF-ended lines; the first list's refusal, then the second's, the number alone, then 7. A refusal changes nothing.
#[tactic(auto, using(crate::proofs::TwoTexts::not_compared, crate::proofs::TwoTexts::both_compared))]
pub fn compare_text(x: &[u8], y: &[u8], out: &mut [u8]) -> Result<usize, Refusal>
    ensures { (answer_of result ≡ comparing x.now y.now (length out.old)) × (out.new ≡ compared_into x.now y.now out.old) }
{
    let mut first = [0u32; 514];
    let mut second = [0u32; 514];
    TwoLists::read(x, y, &mut first, &mut second)?.write(out)
}

// Puts the comparison of two text lists, LF between its lines or `; `; of a refusal the number alone.
pub fn put_compared(out: &mut Output<'_>, x: &[u8], y: &[u8])
    ensures { PutsUpTo 5147 out.old out.new (comparison_of out.old.lines x.now y.now) }
{
    let mut first = [0u32; 514];
    let mut second = [0u32; 514];
    match TwoLists::read(x, y, &mut first, &mut second) {
        Ok(lists) => lists.put(out),
        Err(why) => out.put_decimal(u64::from(why.number())),
    }
}
