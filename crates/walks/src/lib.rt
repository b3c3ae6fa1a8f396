// What walks by hand share: laws of the program logic, in proofs/, that say nothing of any crate. Nothing here runs.

#![tactic(auto)]
