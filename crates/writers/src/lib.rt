// The program's answers as bytes, put into a buffer that the caller lends.
#![tactic(auto)]

pub mod put; // put.rt: numbers and bytes
pub mod output; // output.rt: the lines `got`, `end` and `no`
