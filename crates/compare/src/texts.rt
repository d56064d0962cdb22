// Two texts read as lists.
ghost use Rattle.std.specs.Prelude.{◌≡◌};
ghost use Rattle.refusals.specs.Answer.{answer_by};
ghost use Rattle.schedule.specs.WordLayout.{meant};
ghost use Rattle.compare.specs.Private.{text_read, texts_read, schedules};

use refusals::Refusal;
use schedule::List;

// Two lists, of which each is compared with the other.
#[derive(Clone, Copy)]
pub(crate) struct TwoLists<'a> {
    pub first: List<'a>,
    pub second: List<'a>,
}

// Reads a text into words as a list. The refusal is the number alone.
#[tactic(auto, using(crate::proofs::TwoTexts::text_refused, crate::proofs::TwoTexts::text_taken, crate::proofs::TwoTexts::text_well))]
pub(crate) fn read_list<'a>(text: &[u8], words: &'a mut [u32; 514]) -> Result<List<'a>, Refusal>
    ensures { answer_by (λ list. meant list.words.now) result ≡ text_read text.now }
{
    text::read_text(text, words)?;
    Ok(List { words })
}

impl<'a> TwoLists<'a> {
    // Reads two texts into words as lists, the first one first.
    #[tactic(auto, using(crate::proofs::TwoTexts::first_stops, crate::proofs::TwoTexts::second_stops, crate::proofs::TwoTexts::both_stand))]
    pub(crate) fn read(
        x: &[u8],
        y: &[u8],
        a: &'a mut [u32; 514],
        b: &'a mut [u32; 514],
    ) -> Result<TwoLists<'a>, Refusal>
        ensures { answer_by schedules result ≡ texts_read x.now y.now }
    {
        let first = read_list(x, a)?;
        let second = read_list(y, b)?;
        Ok(TwoLists { first, second })
    }
}
