// Bytes out and in: an output that is filled as far as it has room, numbers in decimal and bytes in hex, the parts of a line, and refusals.
#![tactic(auto)]

pub mod decimal; // decimal.rt: numbers in decimal
pub mod hex; // hex.rt: bytes in hex
pub mod lines; // lines.rt: what parts the lines of a text, and a line of two numbers
pub mod output; // output.rt: an output that is filled as far as it has room
pub mod parts; // parts.rt: the parts of a line
pub mod refusal; // refusal.rt: refusals as an answer has them
