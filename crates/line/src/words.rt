// The words of a question line, and what is answered where a line is no question.
ghost use Rattle.std.specs.Prelude.{◌≡◌};
ghost use Rattle.ascii.specs.Output.{PutsUpTo};
ghost use Rattle.line.specs.Words.{word_of, form_of, usage, expected};

use ascii::output::Output;

#[derive(Clone, Copy, Debug, PartialEq, Eq)]
pub enum Word {
    Show,
    Nybbles,
    Text,
    Dtai,
    Tai,
    Utc,
    Uts,
    Unsmooth,
    Compare,
    Longer,
}

// The words that take a list alone,
#[derive(Clone, Copy, Debug, PartialEq, Eq)]
pub enum ListWord {
    Show,
    Nybbles,
}

// a list and a number,
#[derive(Clone, Copy, Debug, PartialEq, Eq)]
pub enum NumberWord {
    Dtai,
    Utc,
}

// a list, a day and a time of it,
#[derive(Clone, Copy, Debug, PartialEq, Eq)]
pub enum TimeWord {
    Tai,
    Uts,
    Unsmooth,
}

// and two lists.
#[derive(Clone, Copy, Debug, PartialEq, Eq)]
pub enum PairWord {
    Compare,
    Longer,
}

// The fields that a word takes, and which of the words that take them it is.
#[derive(Clone, Copy, Debug, PartialEq, Eq)]
pub enum Form {
    List(ListWord),
    Hex,
    ListAndNumber(NumberWord),
    ListAndTime(TimeWord),
    TwoLists(PairWord),
}

// The word that a field is, if it is one.
#[tactic(auto, using(ascii::proofs::Names::names), unfolding(crate::specs::Words::word_of))]
pub fn word_of(field: &[u8]) -> Option<Word>
    ensures { result ≡ word_of field.now }
{
    match field {
        b"show" => Some(Word::Show),
        b"nybbles" => Some(Word::Nybbles),
        b"text" => Some(Word::Text),
        b"dtai" => Some(Word::Dtai),
        b"tai" => Some(Word::Tai),
        b"utc" => Some(Word::Utc),
        b"uts" => Some(Word::Uts),
        b"unsmooth" => Some(Word::Unsmooth),
        b"compare" => Some(Word::Compare),
        b"longer" => Some(Word::Longer),
        _ => None,
    }
}

impl Word {
    // Its form.
    #[tactic(auto, unfolding(crate::specs::Words::form_of))]
    pub fn form(self) -> Form
        ensures { result ≡ form_of self }
    {
        match self {
            Word::Show => Form::List(ListWord::Show),
            Word::Nybbles => Form::List(ListWord::Nybbles),
            Word::Text => Form::Hex,
            Word::Dtai => Form::ListAndNumber(NumberWord::Dtai),
            Word::Tai => Form::ListAndTime(TimeWord::Tai),
            Word::Utc => Form::ListAndNumber(NumberWord::Utc),
            Word::Uts => Form::ListAndTime(TimeWord::Uts),
            Word::Unsmooth => Form::ListAndTime(TimeWord::Unsmooth),
            Word::Compare => Form::TwoLists(PairWord::Compare),
            Word::Longer => Form::TwoLists(PairWord::Longer),
        }
    }
}

// How a question goes.
#[tactic(auto, unfolding(crate::specs::Words::usage))]
fn usage(word: Option<Word>) -> &'static [u8]
    ensures { result.now ≡ usage word }
{
    match word {
        Some(Word::Show) => b"show LIST",
        Some(Word::Nybbles) => b"nybbles LIST",
        Some(Word::Text) => b"text HEX",
        Some(Word::Dtai) => b"dtai LIST MJD",
        Some(Word::Tai) => b"tai LIST MJD MICROS",
        Some(Word::Utc) => b"utc LIST TAI",
        Some(Word::Uts) => b"uts LIST MJD MICROS",
        Some(Word::Unsmooth) => b"unsmooth LIST MJD NANOS",
        Some(Word::Compare) => b"compare LIST LIST",
        Some(Word::Longer) => b"longer LIST LIST",
        None => b"show, nybbles, text, dtai, tai, utc, uts, unsmooth, compare or longer",
    }
}

// Puts the answer to what is no question.
pub fn put_expected(out: &mut Output, word: Option<Word>)
    ensures { PutsUpTo 90 out.old out.new (expected word) }
{
    out.put_all(b"? expected: ");
    out.put_all(usage(word));
}
