// The trees that a sheet lists.

#![tactic(auto)]
