// The path question on the tables: over which arcs a late arrival came, worked out backwards.
ghost use Rattle.std.specs.Prelude.{◌≡◌, ℕ, ◌+◌, ◌≤◌, ◌<◌, length};
ghost use Rattle.tables.specs.Inside.Net.{times_of, Ranged};
ghost use Rattle.tables.specs.Inside.Trail.{Tells, Ahead, Nearest, Traced, Stepping};
ghost use Rattle.timing.specs.Inside.Web.{arcs_in};
ghost use Rattle.timing.specs.Inside.Traceable.{Stepped, PathWritten};

use crate::sizes::NODES;
use crate::web::Web;

// The tables of one side, when synchronizers depart, and their ranks: no rank is above their number, and each step back lowers the rank by one.
#[derive(Clone, Copy)]
pub(crate) struct Ranking<'a> {
    pub(crate) web: Web<'a>,
    pub(crate) departs: &'a [u64; NODES],
    pub(crate) ranks: &'a [u16; NODES],
    ghost ranged: { Ranged web.nodes (times_of departs.now) },
    ghost low: { (i : ℕ) → i < web.nodes → times_of ranks.now i < web.nodes },
    ghost stepping: { Stepping (arcs_in web) (times_of web.first.now) (times_of departs.now) (times_of ranks.now) web.nodes },
}

// Which synchronizer launched a late arrival, and over how many arcs it came.
#[derive(Clone, Copy, Debug, PartialEq, Eq)]
pub struct Path {
    pub launch: u32,
    pub count: u32,
}

impl Ranking<'_> {
    // Of the synchronizer that arc a leaves.
    fn rank(&self, a: usize) -> u16
        requires { a < self.now.web.arcs }
        ensures { result ≡ times_of self.now.ranks.now (times_of self.now.web.source.now a) }
    {
        self.ranks[usize::from(self.web.source[a])]
    }

    // Does arc a bring a later time than arc b, or the same from a synchronizer of lower rank?
    fn ahead(&self, a: usize, b: usize) -> bool
        requires { (a < self.now.web.arcs) × (b < self.now.web.arcs) }
        ensures { Tells (Ahead (arcs_in self.now.web) (times_of self.now.departs.now) (times_of self.now.ranks.now) a b) result }
    {
        let x = self.web.brings(self.departs, a);
        let y = self.web.brings(self.departs, b);
        y < x || (x == y && self.rank(a) < self.rank(b))
    }

    // Of the arcs from `from` up to `to`: among those bringing the latest time the one whose source has least rank, then the lowest number.
    fn nearest(&self, from: usize, to: usize) -> usize
        requires { (from < to) × (to ≤ self.now.web.arcs) }
        ensures { Nearest (arcs_in self.now.web) (times_of self.now.departs.now) (times_of self.now.ranks.now) from to result }
    {
        let mut arc = from;
        for a in from + 1..to {
            if self.ahead(a, arc) {
                arc = a;
            }
        }
        arc
    }

    // One step back from synchronizer i: the arc over which its late arrival came goes to the place that the rank of the arc's source names.
    // Says which synchronizer the source is.
    fn step(&self, i: usize, arcs: &mut [u32]) -> usize
        requires here { (i < self.now.web.nodes) × (self.now.web.nodes ≤ length arcs.old) }
        requires entered { times_of self.now.web.first.now i < times_of self.now.web.first.now (i + 1) }
        ensures stepped { let k = self.now in Stepped (arcs_in k.web) (times_of k.web.first.now) (times_of k.departs.now) (times_of k.ranks.now) i result arcs.old arcs.new }
        ensures upper_bound { result < self.now.web.nodes }
    {
        let web = &self.web;
        let arc = self.nearest(usize::from(web.first[i]), usize::from(web.first[i + 1]));
        let from = usize::from(web.source[arc]);
        arcs[usize::from(self.ranks[from])] = arc as u32;
        from
    }

    // Steps back from synchronizer i to one of rank 0: the path is written backwards while the rank falls. Says which synchronizer launched it.
    // It calls itself: the falling rank is the measure of its proof, in the code as in the rules.
    fn back(&self, i: usize, arcs: &mut [u32]) -> usize
        requires { (i < self.now.web.nodes) × (self.now.web.nodes ≤ length arcs.old) }
        ensures traced { let k = self.now in Traced (arcs_in k.web) (times_of k.web.first.now) (times_of k.departs.now) (times_of k.ranks.now) result (times_of k.ranks.now i) i arcs.old arcs.new }
        ensures upper_bound { result < self.now.web.nodes }
    {
        if self.ranks[i] == 0 {
            return i;
        }
        let from = self.step(i, arcs);
        self.back(from, arcs)
    }

    // The path to synchronizer i: its last arc, and those before it.
    pub(crate) fn trace(&self, i: usize, arcs: &mut [u32]) -> Path
        requires here { (i < self.now.web.nodes) × (self.now.web.nodes ≤ length arcs.old) }
        requires entered { times_of self.now.web.first.now i < times_of self.now.web.first.now (i + 1) }
        ensures { let k = self.now in PathWritten (arcs_in k.web) (times_of k.web.first.now) (times_of k.departs.now) (times_of k.ranks.now) i result.launch result.count arcs.old arcs.new }
    {
        let from = self.step(i, arcs);
        let launch = self.back(from, arcs);
        Path {
            launch: launch as u32,
            count: u32::from(self.ranks[from]) + 1,
        }
    }
}
