// Demand 3: no code, theorems about the definition that the lookup is proved to meet.
#![tactic(auto)]
