// All that is claimed, in one record. Nothing here runs.

#![tactic(auto)]
