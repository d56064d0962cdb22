// The words of a question line, and what was expected where a line is no question.
#![tactic(auto)]

pub mod words; // words.rt: the words of a line, and what was expected
