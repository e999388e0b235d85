// What is kept while the lines of a text are read.

// How far the order of kinds has come. `tc` counts as a phase, since what may follow it is what may follow a phase.
#[derive(Clone, Copy, Default, PartialEq, PartialOrd)]
pub enum Stage {
    #[default]
    Start,
    Phases,
    Synchronizers,
    Arcs,
}

#[derive(Clone, Copy, Default)]
pub struct Tally {
    // Where the next line starts.
    pub at: usize,
    pub lines: u32,
    pub stage: Stage,
    // Where the next record goes.
    pub end: usize,
    pub cycle: u32,
    pub phases: u32,
    pub synchronizers: u32,
    pub arcs: u32,
}
