#![tactic(auto)]

// The definitions (specs/) and their laws (proofs/). There is no code here: the crates above cite these in their contracts.
