// Demand 3: facts about the rules of sent mode. There is no code here.
#![tactic(auto)]
