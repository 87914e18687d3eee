// The specification of units as XML (specs/) and its theory (proofs/). No code.
#![tactic(auto)]
