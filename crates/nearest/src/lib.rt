// Floats and whole numbers, as mathematics: specs/ has the definitions and proofs/ the theorems. There is no code to run.
#![tactic(auto)]
