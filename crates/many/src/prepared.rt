// A list prepared for many questions, and what it answers: as a single question would be.
ghost use Rattle.std.specs.Prelude.{◌≡◌};
ghost use Rattle.schedule.specs.WordLayout.{meant};
ghost use Rattle.refusals.specs.Answer.{answer_of, answer_by};
ghost use Rattle.clock.specs.Question.{dtai_on, utc_to_tai, tai_to_utc, utc_to_uts, uts_to_utc};
ghost use Rattle.clock.specs.Answers.{instant};
ghost use Rattle.questions.specs.Said.{DaySaid};
ghost use Rattle.many.specs.Private.{Prepared, Ready};

use crate::stretches::{DOWNS, GUESSES, LAST, SPAN, UPS, ending_in, step, walk};
use clock::{NANOS_CUTOFF, TaiMicros, UTS_CUTOFF, UtcInstant, UtcMicros, UtsNanos};
use questions::by_day::{
    Day, dtai_on, early_micros, early_uts, micros_on, near_day, tai_on, utc_on, uts_on,
};
use refusals::Refusal;
use schedule::List;

// A list, and the places of an array that it was prepared in.
#[derive(Clone, Copy)]
pub(crate) struct PreparedList<'a> {
    list: List<'a>,
    places: &'a [u32; 1669],
    ghost ready: { Ready places.now },
    ghost tells: { Prepared (meant list.words.now) places.now },
}

impl<'a> PreparedList<'a> {
    // A list with the array that it was prepared in. The array is the caller's own, so that the compiler knows that no answer stored in another
    // changes it.
    pub(crate) fn new(list: List<'a>, places: &'a [u32; 1669]) -> PreparedList<'a>
        requires { Ready places.now × Prepared (meant list.words.now) places.now }
        ensures { result.list.words.now ≡ list.entry.words.now }
    {
        PreparedList { list, places }
    }

    // What it says of a day. A day after the last one gets what is said of that, and only `last` means something then.
    fn found(self, day: u64) -> Day
        ensures { DaySaid (meant self.entry.list.words.now) day result }
    {
        let places = self.places;
        let last = u64::from(places[LAST]);
        let near = day.min(last) as u32;
        let guess = places[GUESSES + (near / SPAN) as usize];
        let at = walk(places, step(places, guess as usize, near), near);
        let ending = ending_in(places, at, near);
        Day {
            up: places[UPS + at] as u16,
            down: places[DOWNS + at] as u16,
            ending,
            last,
        }
    }

    // DTAI.
    pub(crate) fn dtai(self, day: u64) -> Result<i32, Refusal>
        ensures { answer_of result ≡ dtai_on (meant self.entry.list.words.now) day }
    {
        dtai_on(Ok(self.found(day)), day)
    }

    // UTC to TAI.
    #[tactic(auto, using(questions::proofs::Said::tai_of_day))]
    pub(crate) fn tai(self, day: u64, micros: u64) -> Result<u64, Refusal>
        ensures { answer_of result ≡ utc_to_tai (meant self.entry.list.words.now) day micros }
    {
        let tai = tai_on(Ok(self.found(day)), day, UtcMicros(micros))?;
        Ok(tai.0)
    }

    // TAI to UTC.
    #[tactic(auto, using(questions::proofs::Said::utc_of_day))]
    pub(crate) fn utc(self, tai: u64) -> Result<UtcInstant, Refusal>
        ensures { answer_by instant result ≡ tai_to_utc (meant self.entry.list.words.now) tai }
    {
        let near = near_day(TaiMicros(tai), u64::from(self.places[LAST]));
        utc_on(Ok(self.found(near)), near, TaiMicros(tai))
    }

    // UTC to smoothed time. How the day ends is looked for only where it matters.
    #[tactic(auto, using(questions::proofs::Said::uts_of_day, questions::proofs::Said::early_uts_of_list, crate::proofs::Stretched::list_in_lem))]
    pub(crate) fn uts(self, day: u64, micros: u64) -> Result<u64, Refusal>
        ensures { answer_of result ≡ utc_to_uts (meant self.entry.list.words.now) day micros }
    {
        if micros < UTS_CUTOFF {
            let uts = early_uts(Ok(u64::from(self.places[LAST])), day, UtcMicros(micros))?;
            return Ok(uts.0);
        }
        let uts = uts_on(Ok(self.found(day)), day, UtcMicros(micros))?;
        Ok(uts.0)
    }

    // Smoothed time to UTC, likewise.
    #[tactic(auto, using(questions::proofs::Said::micros_of_day, questions::proofs::Said::early_micros_of_list, crate::proofs::Stretched::list_in_lem))]
    pub(crate) fn micros(self, day: u64, nanos: u64) -> Result<u64, Refusal>
        ensures { answer_of result ≡ uts_to_utc (meant self.entry.list.words.now) day nanos }
    {
        if nanos < NANOS_CUTOFF {
            let utc = early_micros(Ok(u64::from(self.places[LAST])), day, UtsNanos(nanos))?;
            return Ok(utc.0);
        }
        let utc = micros_on(Ok(self.found(day)), day, UtsNanos(nanos))?;
        Ok(utc.0)
    }
}
