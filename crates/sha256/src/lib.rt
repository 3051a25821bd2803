// SHA-256 as FIPS 180-4 defines it. It is read from two stretches of bytes, one after the other, where they lie: `message` has the function, `block` one
// block of 64 bytes, `words` what is done with words.
#![tactic(auto)]

pub mod block;
pub mod message;
pub mod words;
