// The cases A to K of the small town and others beside them, and the wrong planners that they shut out: definitions in specs/, laws in proofs/.
#![tactic(auto)]
