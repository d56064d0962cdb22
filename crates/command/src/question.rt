// The question that a line is.
ghost use Rattle.std.specs.Prelude.{◌≡◌, ℕ, Bool, Some, List, [], ◌∷◌, ◌≤◌, length, MatchOption};
ghost use Rattle.std.specs.Option.{ok_or};
ghost use Rattle.ascii.specs.Lines.{space_byte};
ghost use Rattle.ascii.specs.Parts.{parts};
ghost use Rattle.answers.specs.Times.{question_of};
ghost use Rattle.command.specs.Answer.{max_line, one_field, of_number, of_time, answer_for, answer_parts};
ghost use Rattle.command.specs.Private.{reply};

use crate::hex::Hex;
use answers::times::Asked;
use ascii::decimal::read_decimal;
use ascii::parts::split_once;
use clock::{TaiMicros, UtcMicros, UtsNanos};
use line::words::{Form, ListWord, NumberWord, PairWord, TimeWord, Word, word_of};

// A question: about one list, a nybble list in hex, a time question under a list, and about two lists.
#[derive(Clone, Copy)]
pub(crate) enum Question<'a> {
    OneList(ListWord, &'a [u8]),
    HexList(Hex<'a>),
    Time(&'a [u8], Asked),
    TwoLists(PairWord, &'a [u8], &'a [u8]),
}

// The first of several fields, and those behind it.
fn first_field(line: &[u8]) -> Option<(&[u8], &[u8])>
    ensures { MatchOption result (parts space_byte line.now ≡ line.now ∷ []) (λ x. (parts space_byte line.now ≡ x.0.now ∷ parts space_byte x.1.now) × (length x.1.now ≤ length line.now)) }
{
    split_once(line, b' ')
}

// The only field.
fn only_field(line: &[u8]) -> Option<&[u8]>
    ensures { MatchOption result ((e : List ℕ) (f : List ℕ → List ℕ) → one_field e (parts space_byte line.now) f ≡ e) (λ x. (parts space_byte line.now ≡ x.now ∷ []) × (length x.now ≤ length line.now)) }
{
    match first_field(line) {
        Some(_) => None,
        None => Some(line),
    }
}

// What a word asks that takes a list and a number.
fn at_number(w: NumberWord, n: u64) -> Asked
    ensures { question_of result ≡ of_number w n }
{
    match w {
        NumberWord::Dtai => Asked::Dtai(n),
        NumberWord::Utc => Asked::Utc(TaiMicros(n)),
    }
}

// What a word asks that takes a list, a day and a time.
fn at_time(w: TimeWord, day: u64, n: u64) -> Asked
    ensures { question_of result ≡ of_time w day n }
{
    match w {
        TimeWord::Tai => Asked::Tai(day, UtcMicros(n)),
        TimeWord::Uts => Asked::Uts(day, UtcMicros(n)),
        TimeWord::Unsmooth => Asked::Unsmooth(day, UtsNanos(n)),
    }
}

impl<'a> Question<'a> {
    // The question of a word and the fields behind it, if they are those that the word takes.
    #[tactic(auto, unfolding(crate::specs::Answer::answer_for, crate::specs::Answer::of_hex))]
    fn of(word: Word, fields: &'a [u8]) -> Option<Question<'a>>
        requires { length fields.now ≤ max_line }
        ensures { (lines : Bool) → answer_for lines word (parts space_byte fields.now) ≡ reply lines (ok_or result (Some word)) }
    {
        match word.form() {
            Form::List(w) => Some(Question::OneList(w, only_field(fields)?)),
            Form::Hex => Some(Question::HexList(Hex::of(only_field(fields)?)?)),
            Form::ListAndNumber(w) => {
                let (list, rest) = first_field(fields)?;
                let n = read_decimal(only_field(rest)?)?;
                Some(Question::Time(list, at_number(w, n)))
            }
            Form::ListAndTime(w) => {
                let (list, rest) = first_field(fields)?;
                let (day, time) = first_field(rest)?;
                let time = only_field(time)?;
                Some(Question::Time(list, at_time(w, read_decimal(day)?, read_decimal(time)?)))
            }
            Form::TwoLists(w) => {
                let (first, rest) = first_field(fields)?;
                Some(Question::TwoLists(w, first, only_field(rest)?))
            }
        }
    }

    // The question that a line is; of another line the word, if it starts with one.
    pub(crate) fn read(line: &'a [u8]) -> Result<Question<'a>, Option<Word>>
        requires { length line.now ≤ max_line }
        ensures { (lines : Bool) → answer_parts lines (parts space_byte line.now) ≡ reply lines result }
    {
        let Some((first, fields)) = first_field(line) else {
            return Err(word_of(line));
        };
        let word = word_of(first).ok_or(None)?;
        Question::of(word, fields).ok_or(Some(word))
    }
}
