// What a right plan is, in terms of routes, and how it is read off the work table: definitions in specs/, laws in proofs/.
#![tactic(auto)]
