// Refusals as an answer has them.
ghost use Rattle.refusals.specs.Refusals.{number_of};
ghost use Rattle.ascii.specs.Output.{PutsUpTo};
ghost use Rattle.ascii.specs.Refusal.{refusal, refusal_at};

use crate::output::Output;
use refusals::Refusal;

impl Output<'_> {
    // Puts a refusal by its number, whatever number that is.
    pub fn put_refusal_number(&mut self, number: u8)
        ensures { PutsUpTo 21 self.old self.new (refusal number) }
    {
        self.put(b'!');
        self.put_decimal(u64::from(number));
    }

    // The same with the place at which a list does not read.
    pub fn put_refusal_number_at(&mut self, number: u8, place: usize)
        ensures { PutsUpTo 42 self.old self.new (refusal_at number place) }
    {
        self.put_refusal_number(number);
        self.put(b' ');
        self.put_decimal(place as u64);
    }

    // Puts a refusal.
    pub fn put_refusal(&mut self, why: Refusal)
        ensures { PutsUpTo 21 self.old self.new (refusal (number_of why)) }
    {
        self.put_refusal_number(why.number());
    }

    // Puts the refusal of a list that does not read, with its place.
    pub fn put_refusal_at(&mut self, why: Refusal, place: usize)
        ensures { PutsUpTo 42 self.old self.new (refusal_at (number_of why) place) }
    {
        self.put_refusal_number_at(why.number(), place);
    }
}
