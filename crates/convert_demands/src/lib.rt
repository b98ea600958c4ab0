// The converter (document 02, T-06): what is promised of what it writes, stated over the calls. There is no code here.
#![tactic(auto)]
