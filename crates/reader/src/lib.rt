// The line's reader: what a line of a plan's text says.
#![tactic(auto)]

pub mod kind; // kind.rt: the kinds of lines
pub mod ids; // ids.rt: a range of ids
pub mod pool; // pool.rt: `pool` lines
pub mod hold; // hold.rt: `hold` lines
pub mod want; // want.rt: `want` lines
pub mod read; // read.rt: any line
