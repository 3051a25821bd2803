// Replies: what a command answers, as a small value; how long its bytes are; and the writing of them, from the front of an output.
#![tactic(auto)]

pub mod drafts;
pub mod info;
pub mod names;
pub mod reply;
pub mod status;
pub mod write;
