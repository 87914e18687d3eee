// A text that shows a table part by part: only definitions and laws (specs/, proofs/), no code.
#![tactic(auto)]
