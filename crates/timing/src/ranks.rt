// The ranks of synchronizers whose late departures are known, found by sweeps: those that depart at their launch have rank 0, and sweep r finds
// those that an arc from one of rank r - 1 gives their departure.
ghost use Rattle.std.specs.Prelude.{◌≡◌, ◌&&◌, ℕ, suc, ◌≤◌, ◌<◌, eqb};
ghost use Rattle.tables.specs.Inside.Net.{times_of, brought, Ranged};
ghost use Rattle.tables.specs.Inside.Filled.{Filled};
ghost use Rattle.tables.specs.Inside.Trail.{Tells};
ghost use Rattle.tables.specs.Inside.Ranks.{GivenBy, Ranked, RankedTo, Sweeping, first_rank, RanksUpTo};
ghost use Rattle.timing.specs.Inside.Web.{arcs_in, launched_in};
ghost use Rattle.tables.specs.Inside.Sizes.{NODES};

use crate::sizes::NODES;
use crate::web::Web;

// A number that no rank is. The definitions of ranks in the crate `tables` (`RankedTo`, `Ranked`, `first_rank`) and their theorems speak of it, so ranks
// are no options.
const NONE: u16 = 65_535;

// The tables of one side, and when synchronizers depart: at their launch, or when an arc brings it.
#[derive(Clone, Copy)]
pub(crate) struct Settled<'a> {
    pub(crate) web: Web<'a>,
    pub(crate) launch: &'a [u64; NODES],
    pub(crate) departs: &'a [u64; NODES],
    ghost ranged: { Ranged web.nodes (times_of departs.now) },
}

impl Settled<'_> {
    // Does arc a give the time, from a synchronizer of that rank? The rank is asked first: few arcs come from one of that rank, and on a chain every arc gives
    // its time.
    fn hits(&self, ranks: &[u16; NODES], a: usize, time: u64, rank: u16) -> bool
        requires { a < self.now.web.arcs }
        ensures { let k = self.now in result ≡ (eqb (brought (arcs_in k.web) (times_of k.departs.now) a) time && eqb (times_of ranks.now (times_of k.web.source.now a)) rank) }
    {
        ranks[usize::from(self.web.source[a])] == rank && self.web.brings(self.departs, a) == time
    }

    // Does an arc from `from` up to `to` give the time, from a synchronizer of that rank?
    fn gives(&self, ranks: &[u16; NODES], from: usize, to: usize, time: u64, rank: u16) -> bool
        requires from_le_to { from ≤ to }
        requires to_le_arcs { to ≤ self.now.web.arcs }
        ensures { Tells (GivenBy (arcs_in self.now.web) (times_of self.now.departs.now) (times_of ranks.now) time rank from to) result }
    {
        for a in from..to {
            if self.hits(ranks, a, time, rank) {
                return true;
            }
        }
        false
    }

    // Looks at synchronizer i in the sweep after the given rank.
    fn look(&self, i: usize, rank: u16, ranks: &mut [u16; NODES]) -> bool
        requires here { i < self.now.web.nodes }
        requires rank_bound { rank < 65534 }
        ensures { Ranked (launched_in self.now.web self.now.launch.now) (times_of self.now.departs.now) i rank ranks.old result ranks.new }
    {
        let web = &self.web;
        if ranks[i] != NONE || !web.latch[i] {
            return false;
        }
        let from = usize::from(web.first[i]);
        let to = usize::from(web.first[i + 1]);
        if !self.gives(ranks, from, to, self.departs[i], rank) {
            return false;
        }
        ranks[i] = rank + 1;
        true
    }

    // One sweep. Says whether it found any. Those that have their rank are passed over here, though `look` asks too: tried without, a path on a chain took up to
    // half longer.
    fn sweep(&self, rank: u16, ranks: &mut [u16; NODES]) -> bool
        requires rank_bound { rank < 65534 }
        requires ranked { let k = self.now in (j : ℕ) → j < k.web.nodes → RankedTo (launched_in k.web k.launch.now) (times_of k.departs.now) (suc rank) j (times_of ranks.old j) }
        ensures { let k = self.now in Sweeping (launched_in k.web k.launch.now) (times_of k.departs.now) rank ranks.old ranks.new k.web.nodes result }
    {
        let mut found = false;
        for i in 0..self.web.nodes {
            if ranks[i] == NONE {
                found |= self.look(i, rank, ranks);
            }
        }
        found
    }

    fn first_rank(&self, i: usize) -> u16
        requires { i < NODES }
        ensures { result ≡ first_rank (times_of self.now.launch.now) (times_of self.now.departs.now) i }
    {
        if self.departs[i] == self.launch[i] {
            0
        } else {
            NONE
        }
    }

    // Rank 0 for those that depart at their launch, none for the others.
    fn begin(&self) -> [u16; NODES]
        ensures { Filled NODES (first_rank (times_of self.now.launch.now) (times_of self.now.departs.now)) result self.now.web.nodes }
    {
        let mut ranks = [0; NODES];
        for i in 0..self.web.nodes {
            ranks[i] = self.first_rank(i);
        }
        ranks
    }

    // The ranks of all synchronizers.
    pub(crate) fn ranks(&self) -> [u16; NODES]
        ensures { RanksUpTo (launched_in self.now.web self.now.launch.now) self.now.web.nodes (times_of self.now.departs.now) (times_of result) }
    {
        let mut ranks = self.begin();
        for rank in 0..self.web.nodes as u16 {
            if !self.sweep(rank, &mut ranks) {
                return ranks;
            }
        }
        ranks
    }
}
