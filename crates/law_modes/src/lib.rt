// Facts about the rules of both modes: there is no code here.
#![tactic(auto)]
