// Reading: from the bytes of a circuit image to its records, or to the rule by which the image is refused.
// The format, the limits and the nine rules are in docs/RULES.md; specs/ holds them as definitions.
// From below to above: bytes, header, kind, records, reader, numbered, refusal, rules, checks. None uses a module above it.
#![tactic(auto)]

mod bytes;
mod checks;
mod header;
mod kind;
mod numbered;
mod reader;
mod records;
mod refusal;
mod rules;

pub use bytes::{byte, word};
pub use checks::check;
pub use header::{Header, Image, Layout, Part};
pub use kind::{Kind, NoKind};
pub use numbered::Record;
pub use reader::Reader;
pub use records::{Arc, Phase, Synchronizer};
pub use refusal::{Refusal, Rule};
pub use rules::{bad_counts, bad_cycle};
