// A lent table of one kind, appended to where it stands.
#![tactic(auto)]

pub mod store; // store.rt: a row more, or none
