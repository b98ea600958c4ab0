// The demands, stated over the calls. There is no code here.
#![tactic(auto)]
