// What the program leapsec takes from the shell and gives to it: its arguments as one line, its own words beside those of questions, bytes on
// standard output, and help.
#![tactic(auto)]

pub mod arguments; // arguments.rt: the arguments as a line
pub mod help; // help.rt: the help texts
pub mod output; // output.rt: standard output
pub mod words; // words.rt: the program's own words
