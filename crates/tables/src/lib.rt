// What timing's tables mean: a circuit's flow held in arrays of numbers, with times raised so that none is below zero.
// Definitions and laws only: specs/ and proofs/ hold all of it.
#![tactic(auto)]
