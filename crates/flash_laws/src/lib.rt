// What holds of every call of a flash session: there is no code here.
#![tactic(auto)]
