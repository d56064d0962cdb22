// Answers about two lists that fields name: where they part, and the longer one.
ghost use Rattle.ascii.specs.Output.{PutsUpTo};
ghost use Rattle.answers.specs.Lists.{comparison_answer, longer_answer};

use crate::lists::list_of;
use ascii::output::Output;
use compare::longer::Chosen;

// Puts the comparison of two lists, LF between its lines or `; `; of a refusal the number alone.
pub fn put_comparison(out: &mut Output<'_>, x: &[u8], y: &[u8])
    ensures { PutsUpTo 5147 out.old out.new (comparison_answer out.old.lines x.now y.now) }
{
    compare::lines::put_compared(out, list_of(x), list_of(y));
}

// Puts the longer of two lists, or the refusal.
pub fn put_longer(out: &mut Output<'_>, x: &[u8], y: &[u8])
    ensures { PutsUpTo 1028 out.old out.new (longer_answer x.now y.now) }
{
    let (first, second) = (list_of(x), list_of(y));
    match compare::longer::choose_text(first, second) {
        Ok(Chosen::First) => out.put_all(first),
        Ok(Chosen::Second) => out.put_all(second),
        Err(why) => out.put_refusal(why),
    }
}
