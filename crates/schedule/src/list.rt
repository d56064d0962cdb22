// Words that are known to be a list, and what the list says.
ghost use Rattle.std.specs.Prelude.{◌≡◌, true, length, slice_index_or};
ghost use Rattle.refusals.specs.Answer.{given, require, answer_by};
ghost use Rattle.refusals.specs.Refusals.{not_well_formed};
ghost use Rattle.schedule.specs.Schedule.{no_leap, last_leap, expiry_month, leaves_gap, well_formed};
ghost use Rattle.schedule.specs.Extends.{extends};
ghost use Rattle.schedule.specs.WordLayout.{meant};
ghost use Rattle.schedule.specs.Answers.{writable};

use crate::{Sign, count_of, expiry_month, expiry_of, is_expired, is_list, month_at, sign_at};
use refusals::Refusal;

// The words of a well-formed schedule.
#[derive(Clone, Copy)]
pub struct List<'a> {
    pub words: &'a [u32; 514],
    pub ghost formed: { well_formed (meant words.now) ≡ true },
}

impl<'a> List<'a> {
    // Words as a list. Any others are refused with 11.
    pub fn of(words: &'a [u32; 514]) -> Result<List<'a>, Refusal>
        ensures { answer_by (λ list. list.words.now) result ≡ require (well_formed (meant words.now)) not_well_formed (given words.now) }
    {
        if is_list(words) {
            return Ok(List { words });
        }
        Err(Refusal::NotWellFormed)
    }

    // How many leaps it has.
    pub fn count(self) -> usize
        ensures { result ≡ length (meant self.entry.words.now).leaps }
    {
        count_of(self.words)
    }

    // The month of leap i, 0 where there is no such leap.
    pub fn month(self, i: usize) -> u32
        ensures { result ≡ (slice_index_or (meant self.entry.words.now).leaps i no_leap).month }
    {
        month_at(self.words, i)
    }

    // The sign of leap i, positive where there is no such leap.
    pub fn sign(self, i: usize) -> Sign
        ensures { result ≡ (slice_index_or (meant self.entry.words.now).leaps i no_leap).sign }
    {
        sign_at(self.words, i)
    }

    // The day on which it expires.
    pub fn expiry(self) -> u32
        ensures { result ≡ (meant self.entry.words.now).expiry }
    {
        expiry_of(self.words)
    }

    // The month to which the writers round the expiry down.
    pub fn expiry_month(self) -> u32
        ensures { result ≡ expiry_month (meant self.entry.words.now) }
    {
        expiry_month(self.words)
    }

    // The month of the last leap, or month 0 where there is none.
    pub fn last_leap(self) -> u32
        ensures { result ≡ last_leap 0 (meant self.entry.words.now).leaps }
    {
        let n = self.count();
        if n == 0 {
            return 0;
        }
        self.month(n - 1)
    }

    // Whether it extends another list: it has the other's leaps first, and then, at the other's expiry or after it, its own.
    pub fn extends(self, shorter: List<'_>) -> bool
        ensures { result ≡ extends (meant self.entry.words.now) (meant shorter.entry.words.now) }
    {
        let expiry = shorter.expiry();
        if self.expiry() < expiry {
            return false;
        }
        let m = shorter.count();
        let n = self.count();
        if n < m {
            return false;
        }
        let (all, first) = (self.words, shorter.words);
        if all[..2 * m] != first[..2 * m] {
            return false;
        }
        if m < n {
            return is_expired(expiry, self.month(m));
        }
        true
    }
}

// A list that every writer takes: rounding its expiry down to its month leaves a gap.
#[derive(Clone, Copy)]
pub struct WritableList<'a> {
    pub list: List<'a>,
    pub ghost gap: { leaves_gap (meant list.words.now) ≡ true },
}

// Words as such a list. It is refused with 11, or with 17 where no gap is left.
pub fn writable(words: &[u32; 514]) -> Result<WritableList<'_>, Refusal>
    ensures { answer_by (λ it. it.list.words.now) result ≡ writable (meant words.now) (given words.now) }
{
    let list = List::of(words)?;
    if list.last_leap() < list.expiry_month() {
        return Ok(WritableList { list });
    }
    Err(Refusal::NoGap)
}
