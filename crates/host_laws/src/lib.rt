// What holds of every turn of a host: there is no code here.
#![tactic(auto)]
