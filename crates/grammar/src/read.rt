// What a reader read, and the place behind it. No plainer as one generic type: a field of its own name says what was read.
use image::{Arc, Phase, Synchronizer};

#[derive(Clone, Copy)]
pub struct Number {
    pub value: u32,
    pub next: usize,
}

// A window.
#[derive(Clone, Copy)]
pub struct Span {
    pub low: u32,
    pub high: u32,
    pub next: usize,
}

// What a line says: the cycle, or a record.
#[derive(Clone, Copy)]
pub enum Line {
    Cycle(u32),
    Phase(Phase),
    Synchronizer(Synchronizer),
    Arc(Arc),
}

#[derive(Clone, Copy)]
pub struct Read {
    pub line: Line,
    pub next: usize,
}
