// The response reader: which bytes are responses, the signed structure in one, and its fields.
#![tactic(auto)]

mod names;
pub mod readings;
pub mod shapes;
pub mod signed;
