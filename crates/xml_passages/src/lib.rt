// What is read between two places of a text. No code.
#![tactic(auto)]
