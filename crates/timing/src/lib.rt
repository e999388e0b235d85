// Timing: from an image to early and late times, slacks and missed counts, or to a growing loop; and the path over which a late
// arrival came.
#![tactic(auto)]

mod arrive;
mod good;
mod load;
mod loaded;
mod order;
mod passes;
mod path_call;
mod ranks;
mod results;
mod ring;
mod side;
mod sides;
mod signed;
mod sizes;
mod sweeps;
mod timing_call;
mod trail;
mod web;

pub use path_call::path;
pub use timing_call::{Answer, timing};
pub use trail::Path;
