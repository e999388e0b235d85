// The first passes. Each tries every synchronizer, by number, to and fro: first to last, then last to first. They note nothing, and most
// circuits settle in them.
ghost use Rattle.std.specs.Prelude.{◌≡◌, ◌<◌, ◌≤◌, length, unwrap_or, IfSome};
ghost use Rattle.tables.specs.Inside.Net.{times_of, Ranged};
ghost use Rattle.tables.specs.Inside.Raise.{raised, Lifted, Room};
ghost use Rattle.tables.specs.Inside.Passing.{to_or_fro, Rested, Sweep, Settling};
ghost use Rattle.timing.specs.Inside.Web.{side_in, net_in};
ghost use Rattle.tables.specs.Inside.Sizes.{NODES, RAISES};

use crate::sizes::NODES;
use crate::web::Web;

// After so many passes most circuits have settled.
const PATIENCE: usize = 6;

// Place x of a pass over l places.
pub(crate) fn turn(forth: bool, l: usize, x: usize) -> usize
    requires { x < l }
    ensures { result ≡ to_or_fro forth l x }
{
    if forth { x } else { l - 1 - x }
}

impl Web<'_> {
    // What synchronizer i is raised to: a latch that an arc enters to the greater of its arrival and its departure, any other to its departure.
    pub(crate) fn rises_to(&self, departs: &[u64; NODES], i: usize) -> u64
        requires here { i < self.now.nodes }
        requires ranged { Ranged self.now.nodes (times_of departs.now) }
        ensures { result ≡ raised (side_in self.now) (net_in self.now) (times_of departs.now) i }
    {
        if !self.latch[i] {
            return departs[i];
        }
        let from = usize::from(self.first[i]);
        let to = usize::from(self.first[i + 1]);
        if to <= from {
            return departs[i];
        }
        self.arrival(departs, from, to).max(departs[i])
    }

    // Raises synchronizer i. Says whether that made it depart later.
    fn raise(&self, departs: &mut [u64; NODES], i: usize) -> bool
        requires here { i < self.now.nodes }
        requires ranged { Ranged self.now.nodes (times_of departs.old) }
        ensures { Lifted (side_in self.now) (net_in self.now) i departs.old result departs.new }
    {
        let time = self.rises_to(departs, i);
        let before = departs[i];
        departs[i] = time;
        before < time
    }

    // One pass, from a place on: what lies before it cannot be raised. Says at which place one was raised last.
    fn sweep(&self, departs: &mut [u64; NODES], forth: bool, start: usize) -> Option<usize>
        requires room { Room self.now.nodes self.now.nodes (times_of departs.old) }
        requires rested { (start ≤ self.now.nodes) × Rested (side_in self.now) (net_in self.now) (times_of departs.old) (to_or_fro forth self.now.nodes) start }
        ensures swept { Sweep (side_in self.now) (net_in self.now) self.now.nodes (times_of departs.old) (to_or_fro forth self.now.nodes) self.now.nodes departs.new (unwrap_or result self.now.nodes) }
        ensures below { IfSome result (λ x. x < self.now.nodes) }
    {
        // In the loop a number that no place has stands for none, as in `pass` and for its reason.
        let mut last = self.nodes;
        for x in start..self.nodes {
            if self.raise(departs, turn(forth, self.nodes, x)) {
                last = x;
            }
        }
        if last < self.nodes { Some(last) } else { None }
    }

    // Passes until one raises none, but no more than so many. Says whether it came to that. Each starts where the one before raised last: what that one
    // tried afterwards it need not try again.
    pub(crate) fn settle(&self, departs: &mut [u64; NODES]) -> bool
        requires { Room self.now.nodes RAISES (times_of departs.old) }
        ensures { Settling (side_in self.now) (net_in self.now) self.now.nodes (times_of departs.old) departs.new result }
    {
        let mut forth = true;
        let mut start = 0;
        for _n in 0..PATIENCE {
            match self.sweep(departs, forth, start) {
                None => return true,
                Some(last) => start = self.nodes - 1 - last,
            }
            forth = !forth;
        }
        false
    }
}
