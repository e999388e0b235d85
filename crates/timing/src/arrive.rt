// What the arcs into a synchronizer bring it, on one side, and when it departs. Times are raised, so that none is below zero.
ghost use Rattle.std.specs.Prelude.{◌≡◌, ◌+◌, ◌-◌, ◌≤◌, ◌<◌};
ghost use Rattle.ticks.specs.Inside.Raised.{RAISE, SIGNED};
ghost use Rattle.tables.specs.Inside.Net.{side_of, times_of, brought, better, best, Ranged};
ghost use Rattle.timing.specs.Inside.Web.{side_in, arcs_in};

use crate::sizes::NODES;
use crate::web::Web;

impl Web<'_> {
    // The better of two times: the later for the late side, the earlier for the early one.
    fn better(&self, a: u64, b: u64) -> u64
        ensures { result ≡ better (side_in self.now) a b }
    {
        if self.late { a.max(b) } else { a.min(b) }
    }

    // What arc a brings, and a cycle: the sum of its lead and of when the synchronizer departs that it leaves.
    fn laden(&self, departs: &[u64; NODES], a: usize) -> u64
        requires here { a < self.now.arcs }
        requires ranged { Ranged self.now.nodes (times_of departs.now) }
        ensures value { result ≡ times_of departs.now (times_of self.now.source.now a) + times_of self.now.lead.now a }
        ensures within { (RAISE ≤ result) × (result < SIGNED) }
    {
        departs[usize::from(self.source[a])] + u64::from(self.lead[a])
    }

    // What arc a brings.
    pub(crate) fn brings(&self, departs: &[u64; NODES], a: usize) -> u64
        requires here { a < self.now.arcs }
        requires ranged { Ranged self.now.nodes (times_of departs.now) }
        ensures { result ≡ brought (arcs_in self.now) (times_of departs.now) a }
    {
        self.laden(departs, a) - u64::from(self.cycle)
    }

    // A range of arcs is two numbers, in this function and wherever one is asked. No plainer as a `Range`, which is not `Copy`: its clauses would read `range.start` and `range.end`.
    // The best of the arcs from `from` up to `to`: the last time that they bring for the late side, the first for the early one. The cycle is taken
    // off once.
    pub(crate) fn arrival(&self, departs: &[u64; NODES], from: usize, to: usize) -> u64
        requires here { (from < to) × (to ≤ self.now.arcs) }
        requires ranged { Ranged self.now.nodes (times_of departs.now) }
        ensures { result ≡ best (side_in self.now) (arcs_in self.now) (times_of departs.now) from (to - from) }
    {
        let mut best = self.laden(departs, from);
        for a in from + 1..to {
            best = self.better(best, self.laden(departs, a));
        }
        best - u64::from(self.cycle)
    }
}
