// Further passes, where the first did not settle. What they begin with is the base. They go to and fro over an order that follows the arcs, and
// note of each synchronizer that they raise the arc that raised it, its parent: by these a growing ring is found.
ghost use Rattle.std.specs.Prelude.{◌≡◌, ◌<◌, ◌≤◌, length, unwrap_or, IfSome};
ghost use Rattle.tables.specs.Inside.Net.{times_of, Ranged};
ghost use Rattle.tables.specs.Inside.Raise.{Given, Brings, Tried, Room};
ghost use Rattle.tables.specs.Inside.Listing.{Order};
ghost use Rattle.tables.specs.Inside.Passing.{along, Passing, Ended};
ghost use Rattle.timing.specs.Inside.Ring.{count_of, gain_of};
ghost use Rattle.timing.specs.Inside.Web.{side_in, arcs_in, net_in};
ghost use Rattle.tables.specs.Inside.Sizes.{GROWS, NODES, RAISES};

use crate::order::arrange;
use crate::ring::{Raised, Ring};
use crate::sizes::NODES;
use crate::sweeps::turn;
use crate::web::Web;

impl Web<'_> {
    // Of the arcs from `from` up to `to`, the first that brings the time. One does.
    fn bringer(&self, departs: &[u64; NODES], from: usize, to: usize, time: u64) -> usize
        requires here { to ≤ self.now.arcs }
        requires ranged { Ranged self.now.nodes (times_of departs.now) }
        requires given { Given (arcs_in self.now) (times_of departs.now) from to time }
        ensures { Brings (arcs_in self.now) (times_of departs.now) from to time result }
    {
        for a in from..to {
            if self.brings(departs, a) == time {
                return a;
            }
        }
        unreachable!()
    }

    // Raises synchronizer i, and notes the arc that brought the time, if that made it depart later.
    fn lift(&self, departs: &mut [u64; NODES], parents: &mut [u16; NODES], i: usize) -> bool
        requires here { i < self.now.nodes }
        requires ranged { Ranged self.now.nodes (times_of departs.old) }
        ensures { Tried (side_in self.now) (net_in self.now) i departs.old parents.old result departs.new parents.new }
    {
        let time = self.rises_to(departs, i);
        if time <= departs[i] {
            return false;
        }
        let from = usize::from(self.first[i]);
        let to = usize::from(self.first[i + 1]);
        let arc = self.bringer(departs, from, to, time);
        departs[i] = time;
        parents[i] = arc as u16;
        true
    }

    // One pass over the order. Says which synchronizer was raised last.
    fn pass(
        &self,
        order: &[u16; NODES],
        forth: bool,
        departs: &mut [u64; NODES],
        parents: &mut [u16; NODES],
    ) -> Option<usize>
        requires order { Order self.now.nodes (times_of order.now) }
        requires room { Room self.now.nodes self.now.nodes (times_of departs.old) }
        ensures passing { Passing (side_in self.now) (net_in self.now) self.now.nodes (times_of departs.old) (times_of parents.old) (along order.now forth self.now.nodes) self.now.nodes departs.new parents.new (unwrap_or result self.now.nodes) }
        ensures below { IfSome result (λ i. i < self.now.nodes) }
    {
        // In the loop a number that no synchronizer has stands for none. Tried with an Option, which takes a register more: a mixed chain then took more
        // instructions than at the start (469,263 for 446,776, and 440,663 with a number).
        let mut last = self.nodes;
        for x in 0..self.nodes {
            let i = usize::from(order[turn(forth, self.nodes, x)]);
            if self.lift(departs, parents, i) {
                last = i;
            }
        }
        if last < self.nodes { Some(last) } else { None }
    }

    // Passes until one raises none, or a ring is found, which is shown in the buffer. There are no more of them than synchronizers: where the last still
    // raises one, a ring grows.
    fn grow(&self, departs: &mut [u64; NODES], arcs: &mut [u32]) -> Option<Ring>
        requires room { Room self.now.nodes GROWS (times_of departs.old) }
        requires buffer { self.now.nodes ≤ length arcs.old }
        ensures ended { Ended (side_in self.now) (net_in self.now) self.now.nodes (times_of departs.old) departs.new (count_of result) (gain_of result) arcs.old arcs.new }
        ensures counted { IfSome result (λ ring. 0 < ring.count) }
    {
        let base = *departs;
        let mut parents = [0u16; NODES];
        let mut order = [0u16; NODES];
        arrange(self, &mut order);
        let mut forth = true;
        for n in 0..self.nodes {
            // A pass that raises none is the last: no ring grows.
            let last = self.pass(&order, forth, departs, &mut parents)?;
            let raised = Raised {
                web: *self,
                base: &base,
                departs,
                parents: &parents,
            };
            if let Some(ring) = raised.close(n + 1, last, arcs) {
                return Some(ring);
            }
            forth = !forth;
        }
        None
    }

    // The departures of one side, raised from the launches until none can be raised: then they are the least that fit, and there is no ring. Or a ring
    // that grows: its arcs are shown in the buffer.
    pub(crate) fn rise(&self, departs: &mut [u64; NODES], arcs: &mut [u32]) -> Option<Ring>
        requires room { Room self.now.nodes RAISES (times_of departs.old) }
        requires buffer { self.now.nodes ≤ length arcs.old }
        ensures ended { Ended (side_in self.now) (net_in self.now) self.now.nodes (times_of departs.old) departs.new (count_of result) (gain_of result) arcs.old arcs.new }
        ensures counted { IfSome result (λ ring. 0 < ring.count) }
    {
        // A copy of where the tables are stays in registers: the passes do not read it again.
        let web = *self;
        if web.settle(departs) {
            return None;
        }
        web.grow(departs, arcs)
    }
}
