// The key table by value: its records and its rules, the reading of one from its stored form and the writing of one. Nothing of a call on a stored
// table rests on this crate.
#![tactic(auto)]

pub mod forms;
pub mod records;
pub mod rules;
