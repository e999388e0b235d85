// Report: timing's answer as text. One call times an image and writes its report (docs/RULES.md) into a buffer that is lent.
#![tactic(auto)]

mod decimal;
mod lines;
mod page;
mod report_call;

pub use report_call::{LONGEST, report};
