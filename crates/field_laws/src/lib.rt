// Facts about the rules of the lower crates: there is no code here.
#![tactic(auto)]
