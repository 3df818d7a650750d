// Finishes of a plan and their packed sums: definitions and laws, no code.
#![tactic(auto)]
