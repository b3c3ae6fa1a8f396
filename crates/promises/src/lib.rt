// What reading a sheet promises, and so demand 3 of every sheet that some text reads to. Nothing here runs.

#![tactic(auto)]
