// Sent mode: what holds of both lines and of every session that an opening leads to. There is no code here.
#![tactic(auto)]
