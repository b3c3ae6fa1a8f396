// What reading promises of each entry: its numbers lie within their ranges.

#![tactic(auto)]
