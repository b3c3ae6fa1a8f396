// What is claimed of row files over bytes: what `make` printed is what `check` takes. Nothing here runs.

#![tactic(auto)]
