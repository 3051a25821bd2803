#![tactic(auto)]

// The separation of holders over the entries themselves: lists of their calls in any mixture, over what each of them promises. No code.
