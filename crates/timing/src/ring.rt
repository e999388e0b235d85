// A growing ring. Each synchronizer that was raised since the base has a parent, the arc that raised it last. From one that the last pass raised a walk
// goes back over parents. Where it comes to no base it passes more places than there are synchronizers, so one comes up again: the arcs between are the ring.
ghost use Rattle.std.specs.Prelude.{◌≡◌, false, ◌++◌, ◌≢◌, ℕ, ◌+◌, ◌-◌, ◌*◌, ◌≤◌, ◌<◌, length, get_or, drop, MatchOption};
ghost use Rattle.std.proofs.Math.IntN.{sub_ℕ};
ghost use Rattle.tables.specs.Inside.Net.{times_of};
ghost use Rattle.tables.specs.Inside.Parents.{Notes, ParentsIn};
ghost use Rattle.timing.specs.Inside.Ring.{Repeats, LowestBetween, route_back, written, leads, turned, Turned, Climbs, Short, notes_in, Closed};
ghost use Rattle.ticks.specs.Inside.Raised.{FAR};
ghost use Rattle.tables.specs.Inside.Sizes.{ARCS, FIRSTS, NODES};

use crate::signed::minus;
use crate::sizes::{FIRSTS, NODES};
use crate::web::Web;

// The number of its arcs, and what it adds to a time.
#[derive(Clone, Copy)]
pub(crate) struct Ring {
    pub(crate) count: u32,
    pub(crate) gain: i64,
}

// The tables of one side, when synchronizers departed at the base and when they depart now, and the parent of each that was raised since.
#[derive(Clone, Copy)]
pub(crate) struct Raised<'a> {
    pub(crate) web: Web<'a>,
    pub(crate) base: &'a [u64; NODES],
    pub(crate) departs: &'a [u64; NODES],
    pub(crate) parents: &'a [u16; NODES],
    ghost parents_in: { ParentsIn (notes_in web parents.now base.now departs.now) web.nodes },
}

// A walk back over as many arcs as there are synchronizers: the nodes that it passes, one more, and the arcs over which it goes. All of
// it is filled or there is no walk, so no plainer with the kit's ArrayVec.
#[derive(Drop)]
struct Walk {
    length: usize,
    nodes: [u16; FIRSTS],
    trail: [u16; NODES],
    ghost few: { length ≤ NODES },
    ghost below: { (d : ℕ) → d ≤ length → get_or nodes d 0 < length },
    ghost arcs: { (d : ℕ) → d < length → get_or trail d 0 < ARCS },
}

// A closed stretch of a walk: the node at `first` comes again at `second`. Of those behind it up to there the lowest is at `low`.
#[derive(Clone, Copy)]
struct Stretch {
    first: usize,
    low: usize,
    second: usize,
    ghost order: { (first < low) × (low ≤ second) × (second ≤ NODES) },
}

impl Walk {
    // Both places of the first node that comes a second time: more nodes are walked than there are. Each node that has come has its place noted.
    fn repeat(&self) -> (usize, usize)
        ensures { Repeats (times_of self.now.nodes) self.now.length result.0 result.1 }
    {
        let mut places: [Option<u16>; NODES] = [None; NODES];
        for d in 0..=self.length {
            let node = usize::from(self.nodes[d]);
            if let Some(first) = places[node] {
                return (usize::from(first), d);
            }
            places[node] = Some(d as u16);
        }
        unreachable!()
    }

    // The place of the lowest node after `first`, up to `second`
    fn lowest(&self, first: usize, second: usize) -> usize
        requires { (first < second) × (second ≤ NODES) }
        ensures { LowestBetween (times_of self.now.nodes) first second result }
    {
        (first + 1..=second).min_by_key(|x| self.nodes[*x]).unwrap()
    }

    // Writes `count` arcs in order of travel, from place `high` of the walk back on, into the buffer at `at`. No plainer with slices: the arcs come from the
    // walk's end, so one of two that go side by side would be turned round.
    fn write(&self, high: usize, count: usize, at: usize, arcs: &mut [u32])
        requires count_le_high { (count ≤ high) × (high ≤ NODES) }
        requires count_in_bounds { at + count ≤ length arcs.old }
        ensures { arcs.new ≡ written (times_of self.now.trail) high count at arcs.old }
    {
        for x in 0..count {
            arcs[at + x] = u32::from(self.trail[high - 1 - x]);
        }
    }

    // Writes the ring: from the lowest node to the repeated one, and from there to the lowest node.
    fn put(&self, stretch: &Stretch, arcs: &mut [u32])
        requires { stretch.now.second - stretch.now.first ≤ length arcs.old }
        ensures { arcs.new ≡ turned (times_of self.now.trail) stretch.now.first stretch.now.low stretch.now.second ++ drop (stretch.now.second - stretch.now.first) arcs.old }
    {
        let before = stretch.low - stretch.first;
        self.write(stretch.low, before, 0, arcs);
        self.write(stretch.second, stretch.second - stretch.low, before, arcs);
    }
}

// Is a ring looked for after pass n? After passes 1, 2, 4, 8 and so on, so that it costs little where there is none, and after pass l.
fn due(n: usize, l: usize) -> bool
    ensures { result ≡ false → n ≢ l }
{
    n == l || n.is_power_of_two()
}

impl Web<'_> {
    // The sum of the leads of the arcs from place `from` up to `to` of the walk back
    fn total(&self, walk: &Walk, from: usize, to: usize) -> u64
        requires { (from ≤ to) × (to ≤ walk.now.length) }
        ensures value { result ≡ leads (times_of self.now.lead.now) (route_back (times_of walk.now.trail) to (to - from)) }
        ensures upper_bound { result ≤ (to - from) * 4294967296 }
    {
        let mut sum = 0;
        for d in from..to {
            sum += u64::from(self.lead[usize::from(walk.trail[d])]);
        }
        sum
    }

    // What the ring adds to a time
    fn gained(&self, walk: &Walk, stretch: &Stretch) -> i64
        requires { stretch.now.second ≤ walk.now.length }
        ensures { result ≡ sub_ℕ (leads (times_of self.now.lead.now) (turned (times_of walk.now.trail) stretch.now.first stretch.now.low stretch.now.second)) ((stretch.now.second - stretch.now.first) * self.now.cycle) }
    {
        let sum = self.total(walk, stretch.first, stretch.low)
            + self.total(walk, stretch.low, stretch.second);
        let count = (stretch.second - stretch.first) as u64;
        minus(sum, count * u64::from(self.cycle))
    }

    // Shows the first closed stretch of a walk back.
    fn show(&self, walk: &Walk, arcs: &mut [u32]) -> Ring
        requires { walk.now.length ≤ length arcs.old }
        ensures { Turned (times_of walk.now.nodes) (times_of walk.now.trail) (times_of self.now.lead.now) self.now.cycle walk.now.length result.count result.gain arcs.old arcs.new }
    {
        let (first, second) = walk.repeat();
        let low = walk.lowest(first, second);
        let stretch = Stretch { first, low, second };
        walk.put(&stretch, arcs);
        Ring {
            count: (second - first) as u32,
            gain: self.gained(walk, &stretch),
        }
    }
}

impl Raised<'_> {
    // The walk back over parents, from synchronizer u, if it comes to none that departs at its base.
    fn follow(&self, u: usize) -> Option<Walk>
        requires { u < self.now.web.nodes }
        ensures { let r = self.now in let k : Notes = notes_in r.web r.parents.now r.base.now r.departs.now in MatchOption result (Short k r.web.nodes u) (λ walk. (walk.length ≡ r.web.nodes) × Climbs k r.web.nodes u r.web.nodes (times_of walk.nodes) (times_of walk.trail) (times_of walk.nodes r.web.nodes)) }
    {
        let length = self.web.nodes;
        let mut nodes = [0u16; FIRSTS];
        let mut trail = [0u16; NODES];
        let mut node = u as u16;
        for d in 0..length {
            nodes[d] = node;
            let i = usize::from(node);
            if self.departs[i] == self.base[i] {
                return None;
            }
            let arc = self.parents[i];
            trail[d] = arc;
            node = self.web.source[usize::from(arc)];
        }
        nodes[length] = node;
        Some(Walk {
            length,
            nodes,
            trail,
        })
    }

    // After pass n, which raised u: is a ring closed? It is where the walk back over parents from u comes to no base. Then the ring's arcs go into the
    // buffer, from the lowest-numbered synchronizer on.
    pub(crate) fn close(&self, n: usize, u: usize, arcs: &mut [u32]) -> Option<Ring>
        requires here { u < self.now.web.nodes }
        requires buffer { self.now.web.nodes ≤ length arcs.old }
        ensures { let r = self.now in Closed (notes_in r.web r.parents.now r.base.now r.departs.now) (times_of r.web.lead.now) r.web.cycle r.web.nodes u n result arcs.old arcs.new }
    {
        if !due(n, self.web.nodes) {
            return None;
        }
        let walk = self.follow(u)?;
        Some(self.web.show(&walk, arcs))
    }
}
