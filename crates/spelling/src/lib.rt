// The text of a sheet and of a request by the grammar alone, and that what is read is what its text spells. Nothing here runs.

#![tactic(auto)]
