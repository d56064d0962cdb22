// What parts the lines of a text, and a line of two numbers.
ghost use Rattle.ascii.specs.Output.{PutsUpTo};
ghost use Rattle.ascii.specs.Lines.{between, two_numbers};

use crate::output::Output;

impl Output<'_> {
    // Puts what stands between lines: LF, or `; ` where they are to be one line.
    pub fn put_between(&mut self)
        ensures { PutsUpTo 2 self.old self.new (between self.old.lines) }
    {
        if self.lines {
            self.put(b'\n');
        } else {
            self.put_all(b"; ");
        }
    }

    // Puts two numbers, one space between them.
    pub fn put_two_numbers(&mut self, first: u64, second: u64)
        ensures { PutsUpTo 41 self.old self.new (two_numbers first second) }
    {
        self.put_decimal(first);
        self.put(b' ');
        self.put_decimal(second);
    }
}
