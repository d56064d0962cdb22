// The words of the program's own, beside those of questions.
ghost use Rattle.std.specs.Prelude.{◌≡◌};
ghost use Rattle.shell.specs.Words.{own_of};

#[derive(Clone, Copy, Debug, PartialEq, Eq)]
pub enum Own {
    Ask,
    Replay,
    Help,
}

// The word of the program's own that a word is, if it is one.
#[tactic(auto, using(ascii::proofs::Names::names), unfolding(crate::specs::Words::own_of))]
pub fn own_of(word: &[u8]) -> Option<Own>
    ensures { result ≡ own_of word.now }
{
    match word {
        b"ask" => Some(Own::Ask),
        b"replay" => Some(Own::Replay),
        b"help" => Some(Own::Help),
        _ => None,
    }
}
