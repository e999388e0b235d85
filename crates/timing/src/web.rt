// The tables that passes go over, of one side: the late one or the early one.
ghost use Rattle.std.specs.Prelude.{◌<◌, ℕ};
ghost use Rattle.ticks.specs.Inside.Raised.{RAISE};
ghost use Rattle.tables.specs.Inside.Net.{Shaped, times_of, arcs_of, web_of};

use crate::sizes::{ARCS, FIRSTS, NODES};

// The arcs into a node lie side by side: those into node i are the ones from `first[i]` up to `first[i + 1]`. An arc's lead is its weight with
// a cycle added, which is never below zero. Of nodes and arcs there are so many as `nodes` and `arcs` say, and all of them stay within the tables.
// Tables are as large as the largest image asks. No plainer as slices of just that length: `first` has a place more than there are nodes. Nor is a method
// plainer that gives `first[i]` and `first[i + 1]`, since each caller would take its pair and their order apart.
// `late` is a flag, as `side_of` of the crate `tables` reads it. Departures that are still raised stand beside the web: passes write them in place, and how
// much room is left for more (`Room`, of which `Ranged` is the end) is another fact in each contract.
#[derive(Clone, Copy)]
pub(crate) struct Web<'a> {
    pub(crate) late: bool,
    pub(crate) source: &'a [u16; ARCS],
    pub(crate) lead: &'a [u32; ARCS],
    pub(crate) cycle: u32,
    pub(crate) first: &'a [u16; FIRSTS],
    pub(crate) latch: &'a [bool; NODES],
    pub(crate) nodes: usize,
    pub(crate) arcs: usize,
    ghost shaped: { Shaped (web_of (arcs_of source.now lead.now cycle) first.now latch.now) nodes arcs },
    ghost leads: { (a : ℕ) → a < arcs → times_of lead.now a < RAISE },
}
