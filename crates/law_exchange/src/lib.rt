// Facts about the exchange of host and loader: there is no code here.
#![tactic(auto)]
