// The starred cases over bytes: requests, and what is printed for them. Nothing here runs.

#![tactic(auto)]
