// Theory only: what a holdings file is, what it lists as and what adding to it gives stand in specs/; the laws and the
// proofs of the theorems in proofs/.
#![tactic(auto)]
