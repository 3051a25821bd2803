// What a command is given: which command it is, whether its bytes break a rule and where each parameter stands in them, and what is lent beside it
// with its check.
#![tactic(auto)]

mod children;
pub mod kinds;
pub mod lent;
pub mod parse;
