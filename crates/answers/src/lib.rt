// Answers under the list that a field names: the same list as nybbles, another list beside it, and the time questions.
#![tactic(auto)]

pub mod lists; // lists.rt: the list that a field names, and as nybbles
pub mod pairs; // pairs.rt: two lists compared, and the longer one
pub mod times; // times.rt: the time questions
