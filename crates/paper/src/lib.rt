// The price against the paper that it comes from, and what it depends on: definitions and laws, no code.
#![tactic(auto)]
