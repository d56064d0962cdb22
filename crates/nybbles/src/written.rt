// A written code: one nybble, or two.
ghost use Rattle.std.specs.Prelude.{◌≡◌, ◌≤◌, ◌<◌, length};
ghost use Rattle.nybbles.specs.Codes.{np_of_mark, bit_of};
ghost use Rattle.nybbles.specs.Write.{pair, months_code, sixes_code};
ghost use Rattle.nybbles.specs.Private.{code_of};

use crate::code::{Mark, Unit};
use schedule::Sign;

#[derive(Clone, Copy)]
pub(crate) enum WrittenCode {
    Single(u8),
    Pair(u8, u8),
}

impl WrittenCode {
    // 16 sixes with NP 00.
    pub(crate) const SIXTEEN: WrittenCode = WrittenCode::Pair(0x8, 0xF);

    // 1MNP and its G.
    fn pair(unit: Unit, mark: Mark, g: u8) -> WrittenCode
        ensures { code_of result ≡ pair (bit_of unit) (np_of_mark mark) g }
    {
        WrittenCode::Pair(8 + 4 * unit as u8 + mark.np(), g)
    }

    // The code of 1 to 16 months.
    pub(crate) fn months(mark: Mark, months: u32) -> WrittenCode
        requires { (0 < months) × (months ≤ 16) }
        ensures { code_of result ≡ months_code (np_of_mark mark) months }
    {
        WrittenCode::pair(Unit::Months, mark, (months - 1) as u8)
    }

    // The code of 1 to 16 sixes: 1 to 8 sixes and a positive leap are a single nybble.
    pub(crate) fn sixes(mark: Mark, k: u32) -> WrittenCode
        requires { (0 < k) × (k ≤ 16) }
        ensures { code_of result ≡ sixes_code (np_of_mark mark) k }
    {
        let g = (k - 1) as u8;
        if matches!(mark, Mark::Leaps(Sign::Positive)) && k <= 8 {
            return WrittenCode::Single(g);
        }
        WrittenCode::pair(Unit::Sixes, mark, g)
    }

    // How many nybbles it has.
    pub(crate) fn size(self) -> usize
        ensures { result ≡ length (code_of self) }
    {
        match self {
            WrittenCode::Single(_) => 1,
            WrittenCode::Pair(_, _) => 2,
        }
    }
}
