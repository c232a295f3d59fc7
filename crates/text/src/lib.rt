// Reading a text: its lines, their words, decimal numbers and octets in hex. Nothing here reads a file or prints, and nothing knows
// what the text is for: a program hands octets in.

#![tactic(auto)]

pub mod hex; // hex.rt: octets in hex
pub mod lines; // lines.rt: a line, octet by octet
pub mod numbers; // numbers.rt: decimal numbers
pub mod words; // words.rt: a line's words
