// What is read so far, and what a code makes of it.
ghost use Rattle.std.specs.Prelude.{◌≡◌, length};
ghost use Rattle.refusals.specs.Answer.{answer_of};
ghost use Rattle.schedule.specs.Schedule.{Schedule};
ghost use Rattle.schedule.specs.Private.{SoFar};
ghost use Rattle.nybbles.specs.Read.{has_room, checks};
ghost use Rattle.nybbles.specs.Private.{state_of, Short, Passes, Moves};

use crate::code::{Code, Mark};
use refusals::Refusal;
use schedule::{LAST_MONTH, MAX_GAP, MAX_LEAPS};

// The months of the gap, those of the whole list, and how many leaps were read. The leaps stand in the words that are handed over.
#[derive(Clone, Copy)]
pub(crate) struct Progress {
    pub(crate) gap: u32,
    pub(crate) total: u32,
    pub(crate) count: usize,
}

impl Progress {
    // Whether a mark may follow: a leap needs a place.
    fn has_room(self, mark: Mark) -> bool
        ensures { result ≡ has_room mark self.count }
    {
        !matches!(mark, Mark::Leaps(_)) || self.count < MAX_LEAPS
    }

    // The checks at a code, in their order.
    pub(crate) fn check(self, c: Code) -> Result<(), Refusal>
        requires { Short self c }
        ensures { (s : Schedule) → length s.leaps ≡ self.count → answer_of result ≡ checks (state_of self s) c }
    {
        if MAX_GAP < self.gap + c.months {
            return Err(Refusal::BadGap);
        }
        if LAST_MONTH < self.total + c.months {
            return Err(Refusal::PastLastMonth);
        }
        if self.has_room(c.mark) {
            return Ok(());
        }
        Err(Refusal::TooManyLeaps)
    }

    // What is read after a code that passes the checks; its leap goes into `words`.
    #[tactic(auto, unfolding(crate::specs::Read::after))]
    pub(crate) fn after(self, c: Code, words: &mut [u32; 514]) -> Progress
        requires { Passes self.gap self.total self.count c }
        ensures { (s : Schedule) → SoFar s self.count words.old → Moves self result words.new s c }
    {
        let gap = self.gap + c.months;
        let total = self.total + c.months;
        let count = self.count;
        if let Mark::Leaps(sign) = c.mark {
            words[2 * count] = total;
            words[2 * count + 1] = u32::from(sign);
            return Progress {
                gap: 0,
                total,
                count: count + 1,
            };
        }
        Progress { gap, total, count }
    }
}
