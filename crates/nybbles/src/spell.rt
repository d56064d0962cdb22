// The written codes of a list, in its one spelling.
ghost use Rattle.std.specs.Prelude.{◌≡◌, true, ℕ, ◌+◌, ◌≤◌, ◌<◌, List, [], ◌∷◌, ◌++◌, length, take};
ghost use mathlib.Core.List.{map, flatten};
ghost use Rattle.schedule.specs.Schedule.{max_gap};
ghost use Rattle.schedule.specs.WordLayout.{meant};
ghost use Rattle.nybbles.specs.Codes.{np_of_mark};
ghost use Rattle.nybbles.specs.Write.{sixes, gap_codes, plain_codes, padded, spelling};
ghost use Rattle.nybbles.specs.Private.{max_codes, code_of};

use crate::code::Mark;
use crate::written::WrittenCode;
use schedule::WritableList;
use std::marker::Model;

// No list has more written codes: a gap of g months has at most (g + 15) / 16 of them, and there are at most 257 gaps, of 2400 months.
const MAX_CODES: usize = 390;

// Written codes: how many nybbles they have, and how many there are. The two numbers stand apart, since the compiler would otherwise add to both at
// once, and each code would wait for both.
#[derive(Drop)]
pub(crate) struct Spelling {
    nybbles: usize,
    codes: [WrittenCode; MAX_CODES],
    count: usize,
}

impl Model for Spelling {
    ghost Value = { List (List ℕ) };

    ghost view = { λ s. map code_of (take s.count s.codes) };

    ghost invariant = { λ s. (s.count ≤ max_codes) × (length s.codes ≡ max_codes) × (s.nybbles ≡ length (flatten (map code_of (take s.count s.codes)))) };
}

impl Spelling {
    // No code yet.
    fn empty() -> Spelling
        ensures { result ≡ [] }
    {
        Spelling {
            nybbles: 0,
            codes: [WrittenCode::Single(0); MAX_CODES],
            count: 0,
        }
    }

    fn push(&mut self, code: WrittenCode)
        requires { length self.old < max_codes }
        ensures { self.new ≡ self.old ++ code_of code ∷ [] }
    {
        self.codes[self.count] = code;
        self.count += 1;
        self.nybbles += code.size();
    }

    // The codes of a number of sixes.
    fn push_sixes(&mut self, mark: Mark, k: u32)
        requires { (0 < k) × (length self.old + length (sixes (np_of_mark mark) k) ≤ max_codes) }
        ensures { self.new ≡ self.old ++ sixes (np_of_mark mark) k }
    {
        let mut left = k;
        while 16 < left {
            self.push(WrittenCode::SIXTEEN);
            left -= 16;
        }
        self.push(WrittenCode::sixes(mark, left));
    }

    // The codes of a gap.
    fn push_gap(&mut self, mark: Mark, gap: u32)
        requires { (0 < gap) × (gap ≤ max_gap) × (length self.old + length (gap_codes (np_of_mark mark) gap) ≤ max_codes) }
        ensures { self.new ≡ self.old ++ gap_codes (np_of_mark mark) gap }
    {
        if gap % 6 == 0 {
            self.push_sixes(mark, gap / 6);
            return;
        }
        if gap <= 16 {
            self.push(WrittenCode::months(mark, gap));
            return;
        }
        self.push_sixes(Mark::Continues, gap / 12 * 2);
        self.push(WrittenCode::months(mark, gap % 12));
    }

    // The codes of a list, not evened yet.
    fn plain(can: WritableList<'_>) -> Spelling
        ensures { result ≡ plain_codes (meant can.entry.list.words.now) }
    {
        let list = can.list;
        let mut spelling = Spelling::empty();
        let mut last: u32 = 0;
        for leap in list.leaps() {
            spelling.push_gap(Mark::Leaps(leap.sign), leap.month - last);
            last = leap.month;
        }
        spelling.push_gap(Mark::Expires, list.expiry_month() - last);
        spelling
    }

    pub(crate) fn codes(&self) -> &[WrittenCode]
        ensures { (map code_of result.now ≡ self.now) × (length result.now ≤ max_codes) }
    {
        &self.codes[..self.count]
    }

    // How many nybbles the codes have.
    pub(crate) fn nybble_count(&self) -> usize
        ensures { result ≡ length (flatten self.now) }
    {
        self.nybbles
    }

    // Puts a 9 before the last single nybble, if there is one.
    fn pad(&mut self)
        ensures { self.new ≡ padded self.old }
    {
        for i in (0..self.count).rev() {
            if let WrittenCode::Single(v) = self.codes[i] {
                self.codes[i] = WrittenCode::Pair(9, v);
                self.nybbles += 1;
                return;
            }
        }
    }

    // The codes of a list.
    pub(crate) fn of(can: WritableList<'_>) -> Spelling
        ensures { result ≡ spelling (meant can.entry.list.words.now) }
    {
        let mut spelling = Spelling::plain(can);
        if spelling.nybble_count() % 2 == 1 {
            spelling.pad();
        }
        spelling
    }
}
