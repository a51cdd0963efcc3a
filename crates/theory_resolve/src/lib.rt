#![tactic(auto)]
// On a chained list resolve finds the longest stored prefix, and the path that it lists spells that prefix. Theorems only, see specs/ and proofs/.
