// Reading a script: what a line asks for, as a value. Nothing here reads a file or prints, and nothing knows a layer: a program hands
// a line in, and gets a call, to carry out.

#![tactic(auto)]

pub mod arguments; // arguments.rt: what the words behind a call's name may say
pub mod call; // call.rt: a call, as a value
pub mod descriptor; // descriptor.rt: a table entry in the Recommendation's notation
mod packets; // packets.rt: the call that writes a packet of level 2: pack
pub mod read; // read.rt: a line, read into a call
