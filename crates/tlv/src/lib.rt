// Type-length-value bytes: little-endian numbers, headers, runs and the walk over one, writers. What each function gives is a definition of `model`.
#![tactic(auto)]

pub mod bytes;
pub mod heads;
pub mod numbers;
pub mod reader;
pub mod rows;
pub mod walk;
pub mod writer;
