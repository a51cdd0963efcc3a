#![tactic(auto)]
// What the contracts of the public calls allow, and what they give where the state is not sound or an answer list is short. Theorems only, see specs/ and
// proofs/.
