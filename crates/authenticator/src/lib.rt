// A call on a stored table, the whole way: refused, or its command parsed, decided, its reply written and the table that it leaves written; and a
// withdrawal, which writes no reply.
#![tactic(auto)]

pub mod call;
pub mod outcome;
pub mod withdraw;
