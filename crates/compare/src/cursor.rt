// A list followed month by month.
ghost use Rattle.std.specs.Prelude.{◌≡◌};
ghost use Rattle.schedule.specs.WordLayout.{meant};
ghost use Rattle.compare.specs.Private.{ahead, first_month, passed, last_known, mark_ahead};

use schedule::{Leap, Leaps, List};

// Past the last month.
pub(crate) const PAST_MONTHS: u32 = schedule::LAST_MONTH + 1;

// The next leap of a list, those after it, and the last month that the list knows of, which is the last one that starts before its expiry.
#[derive(Clone, Copy)]
pub(crate) struct Cursor<'a> {
    next: Option<Leap>,
    rest: Leaps<'a>,
    known: u32,
}

impl<'a> Cursor<'a> {
    // All leaps of a list are ahead.
    pub(crate) fn of(list: List<'a>) -> Cursor<'a>
        ensures { (ahead result ≡ (meant list.entry.words.now).leaps) × (result.known ≡ last_known (meant list.entry.words.now)) }
    {
        let mut rest = list.leaps();
        let next = rest.next();
        let last_day = u64::from(list.expiry() - 1);
        Cursor {
            next,
            rest,
            known: u32::from(calendar::latest_month(last_day)),
        }
    }

    // The month of the next leap; a month past the last where there is none.
    #[tactic(auto, unfolding(crate::specs::Private::first_month))]
    pub(crate) fn month(self) -> u32
        ensures { result ≡ first_month (ahead self.entry) }
    {
        match self.next {
            Some(leap) => leap.month,
            None => PAST_MONTHS,
        }
    }

    // The mark of a month that is not past the next leap.
    #[tactic(auto, unfolding(crate::specs::Private::first_mark))]
    pub(crate) fn mark(self, month: u32) -> u8
        ensures { result ≡ mark_ahead self.entry.known (ahead self.entry) month }
    {
        if self.known < month {
            return b'?';
        }
        match self.next {
            Some(leap) if leap.month == month => text::sign_byte(leap.sign),
            _ => b'0',
        }
    }

    // Passes the next leap if it is at a month.
    #[tactic(auto, unfolding(crate::specs::Private::passed), using(crate::proofs::Ahead::taken))]
    pub(crate) fn pass(&mut self, month: u32)
        ensures { (ahead self.new ≡ passed month (ahead self.old)) × (self.new.known ≡ self.old.known) }
    {
        if let Some(leap) = self.next {
            if leap.month == month {
                self.next = self.rest.next();
            }
        }
    }
}
