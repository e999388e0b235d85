// The tables that a good image is loaded into.
use crate::sizes::{ARCS, FIRSTS, NODES};

// Of each arc: the synchronizer that it leaves, and its late and early weights with a cycle added. Of the synchronizers: where the arcs into each
// begin, its launch, raised, and whether it is a latch. An array is a column, since `arcs_of` and `net_of` of the crate `tables` read each as a list. What is
// loaded (`LoadedInto`) ties them to a good image; it is no fact of this type, which begins empty.
#[derive(Drop)]
pub(crate) struct Tables {
    pub(crate) source: [u16; ARCS],
    pub(crate) late: [u32; ARCS],
    pub(crate) early: [u32; ARCS],
    pub(crate) first: [u16; FIRSTS],
    pub(crate) launch: [u64; NODES],
    pub(crate) latch: [bool; NODES],
}

impl Tables {
    pub(crate) fn empty() -> Tables {
        Tables {
            source: [0; ARCS],
            late: [0; ARCS],
            early: [0; ARCS],
            first: [0; FIRSTS],
            launch: [0; NODES],
            latch: [false; NODES],
        }
    }
}
