// Facts about what a loader does with an image's units: there is no code here.
#![tactic(auto)]
