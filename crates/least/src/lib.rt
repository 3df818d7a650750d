// Least sums over arcs. A walking distance is one, and so is each value of the work table: definitions in specs/, laws in proofs/.
#![tactic(auto)]
