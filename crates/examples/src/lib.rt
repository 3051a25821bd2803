#![tactic(auto)]

// The definitions of `model` computed: P1 to P9, the edges, every limit, and that the conditions of the separation are met and needed. There is no code here.
