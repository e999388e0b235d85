// The C interface: the five calls of this library as functions that C can call, with answers that C can read. Each calls the Rattle call of
// the same name and turns its answer, a `Result`, into a struct of numbers. None has a condition, and none keeps anything.
#![tactic(auto)]

mod calls;
mod check_answer;
mod path_answer;
mod text_answer;
mod timing_answer;

pub use calls::{
    neelukudam_check, neelukudam_image_from_text, neelukudam_path, neelukudam_report,
    neelukudam_timing,
};
pub use check_answer::CheckAnswer;
pub use path_answer::PathAnswer;
pub use text_answer::TextAnswer;
pub use timing_answer::TimingAnswer;
