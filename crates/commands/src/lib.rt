// The five commands, a file each. A command's parameters, the lent numbers and a stored table that is only read give a decision: a reply and a change,
// both small values. No command sees an output, nor what is lent for the reply's bytes alone.
#![tactic(auto)]

pub mod caller;
pub mod decide;
pub mod decision;
mod deregister;
mod get_info;
mod open_settings;
mod register;
mod sign;
mod statuses;
