// The text of a plan, up to its fields: where a part of it ends, numbers, and the fields that a form asks for.
#![tactic(auto)]

pub mod parts; // parts.rt: where a part ends, and a text cut at a byte
pub mod number; // number.rt: a field read as a number
pub mod form; // form.rt: the fields behind a kind's word, read as a form says
