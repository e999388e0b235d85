// The circuits with known numbers (circuits/README.md), each given as the bytes of its image: one list under one theorem. And the
// mistakes that are easy to make, each shown by example. Definitions and laws only: specs/ and proofs/ hold all of it.
#![tactic(auto)]
