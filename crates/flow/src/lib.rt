// Times that flow along arcs: the equations of a circuit's departures, their least solutions, rounds, rings and rank.
// Definitions and laws only: specs/ and proofs/ hold all of it.
#![tactic(auto)]
