// Demand 3 as C sees it: facts about the session calls of the bench. There is no code here.
#![tactic(auto)]
