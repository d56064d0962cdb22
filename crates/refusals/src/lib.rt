// The refusals by name, each with its number. An accepted answer carries 0.
#![tactic(auto)]

ghost use Rattle.std.specs.Prelude.{◌≡◌};
ghost use Rattle.refusals.specs.Refusals.{number_of};

// Why an answer is refused.
#[derive(Clone, Copy, Debug, PartialEq, Eq)]
pub enum Refusal {
    // The list ends early.
    EndsEarly = 1,

    // A byte that is not allowed there.
    NotAllowed = 2,

    // A gap malformed or over 999 months.
    BadGap = 3,

    // Past month 2400, January 2172.
    PastLastMonth = 4,

    // More than 256 leaps.
    TooManyLeaps = 5,

    // Something after the end.
    AfterEnd = 6,

    // The output is shorter than the list, or than the comparison of two lists, or than what a line of a trace may print.
    OutputShort = 7,

    // Before 1972: an MJD under 41317, or a TAI under 10,000,000.
    Before1972 = 8,

    // No such instant.
    NoInstant = 9,

    // Expired or not yet known.
    NotKnown = 10,

    // The schedule is not well formed, or no list in use, in a trace.
    NotWellFormed = 11,

    // Two lists contradict each other.
    Contradiction = 16,

    // Rounding the expiry down to its month leaves a gap of 0.
    NoGap = 17,

    // No line of a trace.
    NoLine = 20,
}

impl Refusal {
    // Its number in the paper.
    pub fn number(self) -> u8
        ensures { result ≡ number_of self }
    {
        self as u8
    }
}
