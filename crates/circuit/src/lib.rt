// What an image means: its clock, its latches and flip-flops, the two flows of late and early times, slacks and results.
// Definitions and laws only: specs/ and proofs/ hold all of it.
#![tactic(auto)]
