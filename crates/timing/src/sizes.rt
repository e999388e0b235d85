// How large the tables are: they have room for the largest image.
use image::Image;

pub(crate) const PHASES: usize = Image::MOST_PHASES as usize;

pub(crate) const NODES: usize = Image::MOST_SYNCHRONIZERS as usize;

pub(crate) const ARCS: usize = Image::MOST_ARCS as usize;

// Where the arcs into each synchronizer begin, and where those into the last end.
pub(crate) const FIRSTS: usize = NODES + 1;
