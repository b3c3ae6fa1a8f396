// What is claimed of `makeall` over bytes: it is answered as the separate requests are. Nothing here runs.

#![tactic(auto)]
