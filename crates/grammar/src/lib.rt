// The grammar of a written circuit: what a text says, and that it says one thing.
// Definitions and laws only, in specs/ and proofs/. Here are the shapes in which a reader hands on what it read.
#![tactic(auto)]

mod read;

pub use read::{Line, Number, Read, Span};
