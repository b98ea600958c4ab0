// What one slower road can do, stated over the calls. There is no code here.
#![tactic(auto)]
