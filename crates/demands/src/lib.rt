// The three demands that the library is for, said of the calls alone: an image's bytes, the buffers lent, the answer, and what is left in
// the buffers. Definitions and laws only: specs/Demands.antt is the page to read first, proofs/ show it.
#![tactic(auto)]
