// The leaps of a list, one after the other.
ghost use Rattle.std.specs.Prelude.{◌≡◌};
ghost use Rattle.std.specs.Iterator.{YieldsFirst, item_count};
ghost use Rattle.schedule.specs.WordLayout.{meant};
ghost use Rattle.schedule.specs.Left.{left};

use crate::{Leap, List};

// A list, and how many of its leaps have been taken.
#[derive(Clone, Copy)]
pub struct Leaps<'a> {
    list: List<'a>,
    taken: usize,
}

impl<'a> List<'a> {
    // Its leaps, from the first on.
    pub fn leaps(self) -> Leaps<'a>
        ensures { left result ≡ (meant self.entry.words.now).leaps }
    {
        Leaps {
            list: self,
            taken: 0,
        }
    }
}

impl Iterator for Leaps<'_> {
    type Item = Leap;

    ghost next_gives = { YieldsFirst left };

    ghost remaining = { item_count left };

    fn next(&mut self) -> Option<Leap> {
        if self.list.count() <= self.taken {
            return None;
        }
        let leap = Leap {
            month: self.list.month(self.taken),
            sign: self.list.sign(self.taken),
        };
        self.taken += 1;
        Some(leap)
    }
}
