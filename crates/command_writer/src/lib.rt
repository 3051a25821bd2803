// The writers of commands: what is lent to each of the five becomes the command, its children in the order of its list of fields. Every field's
// rule is asked, and the command's length known, before the first byte is written.
#![tactic(auto)]

mod lengths;
pub mod marked;
mod parts;
pub mod writers;
