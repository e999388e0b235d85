// Whole numbers for times: ℤ read by omega, the greater and the lesser of two, and raised ticks.
// Definitions and laws only: specs/ and proofs/ hold all of it.
#![tactic(auto)]
