// Nothing to run: what the search and the building rest on.
#![tactic(auto)]
