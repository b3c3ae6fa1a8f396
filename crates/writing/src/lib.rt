// The text of a sheet as a definition, and what is claimed of it. Nothing here runs; the code is crate `writer`.

#![tactic(auto)]
