// The words of document 01 are definitions for contracts and proofs, in specs/. Nothing here runs.

#![tactic(auto)]
