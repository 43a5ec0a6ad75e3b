// Text that arrives a bit at a time: what is still to be read, what a byte makes of it, and that the verdict at the end is the one on the
// whole text. Definitions and laws; no functions.
#![tactic(auto)]
