// Day sheets (document 02, T-03): what is promised under one, stated over the calls. There is no code here.
#![tactic(auto)]
