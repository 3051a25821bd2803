// What a program that obeys a script stands on: its arguments, and text. Of the sum of a stretch it is promised which it is, of the other
// functions little more than that they are safe and end; that these do what they say is tested by the trace's output.
#![tactic(auto)]

pub mod slots;
pub mod text;
