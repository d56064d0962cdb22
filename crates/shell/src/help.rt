// The help texts. A test runs every example in them.
use crate::output::write;
use crate::words::{Own, own_of};
use line::words::{Word, word_of};

const ALL: &[u8] = b"Answers questions about leap seconds, under a list of them.\n\
\n\
leapsec show LIST                DTAI from which day to which, and from when it is unknown\n\
leapsec nybbles LIST             the list as nybbles, in hex\n\
leapsec text HEX                 a nybble list, in hex, as text\n\
leapsec dtai LIST MJD            TAI minus UTC on a day, in seconds\n\
leapsec tai LIST MJD MICROS      UTC to TAI\n\
leapsec utc LIST TAI             TAI to UTC: MJD MICROS\n\
leapsec uts LIST MJD MICROS      UTC to smoothed time: NANOS\n\
leapsec unsmooth LIST MJD NANOS  smoothed time to UTC: MICROS\n\
leapsec compare LIST LIST        where two lists part, and whether one extends the other\n\
leapsec longer LIST LIST         of two lists the one that extends the other\n\
leapsec ask                      a question a line from standard input, an answer a line\n\
leapsec replay                   a recorded trace of lists, resets and questions from standard input\n\
leapsec help WORD                more about one of these words, with an example\n\
\n\
LIST    a compact text list such as '6+5?', or the word current\n\
HEX     a nybble list, two hex digits a byte\n\
MJD     a Modified Julian Day: 41317 is 1 January 1972\n\
MICROS  microseconds of a UTC day\n\
NANOS   nanoseconds of a smoothed day, which always has 86,400 seconds\n\
TAI     microseconds from 1972-01-01 00:00:00 TAI\n\
\n\
What is no question is answered by ? and what was expected. A question that is refused is\n\
answered by ! and a number, and where a list does not read also by the place in it. Of two\n\
lists and in a trace no place is given, and compare gives the number alone, without the !.\n\
The numbers:\n\
1   the list ends early\n\
2   a byte that is not allowed there\n\
3   a gap malformed or over 999 months\n\
4   past month 2400, January 2172\n\
5   more than 256 leaps\n\
6   something after the end\n\
8   before 1972: an MJD under 41317, or a TAI under 10,000,000\n\
9   no such instant\n\
10  expired or not yet known\n\
11  no list in use, in a trace\n\
16  two lists contradict each other\n\
20  no line of a trace\n";

const SHOW: &[u8] = b"leapsec show LIST\n\
A line for each stretch of days with one DTAI: its first day, its last day and DTAI.\n\
Then the day from which on DTAI is unknown.\n\
\n\
$ leapsec show '6+5?'\n\
1972-01-01 1972-06-30 +10\n\
1972-07-01 1972-11-30 +11\n\
1972-12-01 unknown\n";

const NYBBLES: &[u8] = b"leapsec nybbles LIST\n\
The list as nybbles, in hex, in the one spelling of the writer.\n\
\n\
$ leapsec nybbles '6+5?'\n\
90f4\n";

const TEXT: &[u8] = b"leapsec text HEX\n\
A nybble list as text. Hex digits of either case are read, and every spelling of a list.\n\
\n\
$ leapsec text 0F\n\
6+5?\n";

const DTAI: &[u8] = b"leapsec dtai LIST MJD\n\
TAI minus UTC on a day, in seconds.\n\
\n\
$ leapsec dtai current 57754\n\
37\n";

const TAI: &[u8] = b"leapsec tai LIST MJD MICROS\n\
The TAI of an instant of UTC, in microseconds from 1972-01-01 00:00:00 TAI.\n\
\n\
$ leapsec tai '6+5?' 41498 86400000000\n\
15724810000000\n";

const UTC: &[u8] = b"leapsec utc LIST TAI\n\
The instant of UTC that has this TAI: the day and the microseconds of it.\n\
\n\
$ leapsec utc '6+5?' 15724810000000\n\
41498 86400000000\n";

const UTS: &[u8] = b"leapsec uts LIST MJD MICROS\n\
The smoothed time of an instant of UTC, in nanoseconds of the day.\n\
\n\
$ leapsec uts '6+5?' 41498 86400000000\n\
86399001000000\n";

const UNSMOOTH: &[u8] = b"leapsec unsmooth LIST MJD NANOS\n\
The microseconds of the UTC day at a smoothed time: the greatest whose smoothed time is not above it.\n\
\n\
$ leapsec unsmooth '6+5?' 41498 86399001000000\n\
86400000000\n";

const COMPARE: &[u8] = b"leapsec compare LIST LIST\n\
A line for each month, from 0 (January 1972) on, at which either list has a leap and their marks differ:\n\
the month, the first list's mark and the second's. A mark is + or -, 0 for no leap, or ? from the list's\n\
expiry on. Then, if the expiries differ, = and the MJD of each. Then how the lists stand to each other:\n\
same, extends 1 (the first extends the second), extends 2 or contradict.\n\
One list extends another if its leaps before the other's expiry are exactly the other's leaps, and it\n\
expires no earlier; it then gives every answer that the other gives. Where a list does not read, the\n\
number of its refusal is printed.\n\
\n\
$ leapsec compare '6+6+5?' '6+12+5?'\n\
12 + 0\n\
18 ? +\n\
= 41834 42017\n\
contradict\n";

const LONGER: &[u8] = b"leapsec longer LIST LIST\n\
Of two lists the one that extends the other (see leapsec help compare), the first if they are the same.\n\
!16 if neither does: the lists contradict each other. Where a list does not read, ! and its number.\n\
\n\
$ leapsec longer '6+5?' '6+6+5?'\n\
6+6+5?\n";

const ASK: &[u8] = b"leapsec ask\n\
Answers the questions on standard input, one a line, by one line each. Between the lines of show and of\n\
compare stands `; `.\n\
\n\
$ printf 'dtai current 57753\\nshow 5?\\n' | leapsec ask\n\
36\n\
1972-01-01 1972-05-31 +10; 1972-06-01 unknown\n";

const REPLAY: &[u8] = b"leapsec replay\n\
Replays a recorded trace from standard input, a line at a time. At the start no list is in use, and none is stored.\n\
L LIST        use this text list (not the word current); if it is refused, ! and its number, and the list in use stays\n\
S             store the list in use\n\
Z             reset: use the stored list\n\
Q MJD MICROS  the smoothed time of an instant of UTC under the list in use: MJD NANOS, or ! and the number\n\
One space stands between the fields. Any other line is answered by !20 and changes nothing, also one of more\n\
than 4,096 bytes or with a number of more than 18 digits, and a last line without a newline. L, S and Z print\n\
nothing else.\n\
\n\
$ printf 'L 6+5?\\nQ 41498 86400000000\\n' | leapsec replay\n\
41498 86399001000000\n";

const HELP: &[u8] = b"leapsec help WORD\n\
More about a word: show, nybbles, text, dtai, tai, utc, uts, unsmooth, compare, longer, ask, replay or help.\n\
Without one, all of them.\n\
\n\
$ leapsec help utc | head -n 1\n\
leapsec utc LIST TAI\n";

const EXPECTED: &[u8] =
    b"? expected: help WORD, WORD being show, nybbles, text, dtai, tai, utc, uts, unsmooth, compare, longer, ask, replay or help\n";

// What a word of questions asks, with an example.
fn of_word(word: Word) -> &'static [u8] {
    match word {
        Word::Show => SHOW,
        Word::Nybbles => NYBBLES,
        Word::Text => TEXT,
        Word::Dtai => DTAI,
        Word::Tai => TAI,
        Word::Utc => UTC,
        Word::Uts => UTS,
        Word::Unsmooth => UNSMOOTH,
        Word::Compare => COMPARE,
        Word::Longer => LONGER,
    }
}

// What a word of the program's own does, with an example.
fn of_own(own: Own) -> &'static [u8] {
    match own {
        Own::Ask => ASK,
        Own::Replay => REPLAY,
        Own::Help => HELP,
    }
}

// Writes what the program answers.
pub fn print(rt: &HostRuntime) {
    write(rt, ALL);
}

// Writes what a word asks or does, with an example, or what was expected.
pub fn print_word(rt: &HostRuntime, word: &[u8]) {
    let text = if let Some(word) = word_of(word) {
        of_word(word)
    } else if let Some(own) = own_of(word) {
        of_own(own)
    } else {
        EXPECTED
    };
    write(rt, text);
}
