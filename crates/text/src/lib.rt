// A written circuit made an image (docs/RULES.md). The grammar is in the crate `grammar`; each function here reads what a definition of
// grammar's reader reads, at a place in the text. Text and place stay two parameters, as in those definitions (`number_at`, `line_at` ..) and the laws on
// them (`line_sound`, `line_complete`).
// From below to above: scan, windows, lines, tally, layout, text_call. None uses a module above it.
#![tactic(auto)]

mod layout;
mod lines;
mod scan;
mod tally;
mod text_call;
mod windows;

pub use text_call::{LONGEST, image_from_text};
