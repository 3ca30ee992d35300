// Demand 3: two ports on one chip. specs/ has the model and the statement, proofs/ the proof; there is no code.
#![tactic(auto)]
