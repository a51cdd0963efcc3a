#![tactic(auto)]
// Pins, cuts and leaves keep the tree and the stores sound. See proofs/.
