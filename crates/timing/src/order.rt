// An order in which passes try the synchronizers where they go on for long: those that feed a latch come before it, wherever no ring forbids that. Then
// one pass settles all that hangs on no ring, however the synchronizers are numbered.
// A walk goes from each synchronizer back over the arcs that enter it, and lists a synchronizer when it has seen all that feed it. The order changes
// only how long the passes take: who is not listed by the walk is listed after it.
ghost use Rattle.std.specs.Prelude.{◌≡◌, ℕ, ◌+◌, ◌≤◌, ◌<◌};
ghost use Rattle.tables.specs.Inside.Net.{times_of};
ghost use Rattle.tables.specs.Inside.Listing.{Listed, Enlisted, Order, Stacked};

use crate::sizes::{ARCS, NODES};
use crate::web::Web;

// More steps than a walk has: it goes over each arc once, and leaves each synchronizer once.
const STEPS: usize = 2 * ARCS;

// Walks back over the arcs, and what they have listed.
#[derive(Drop)]
struct Walk<'a> {
    web: Web<'a>,
    // Who was seen; the synchronizers on the way, and the next arc of each. No plainer with the kit's ArrayVec:
    // that a push never fails would have to be shown, as `depth` must be here.
    seen: [bool; NODES],
    stack: [u16; NODES],
    ahead: [u16; NODES],
    depth: usize,
    // Who is listed, and where, up to `count`: as the stack up to `depth`.
    listed: [bool; NODES],
    list: [u16; NODES],
    count: usize,
    ghost stacked: { Stacked web.nodes stack depth },
    ghost enlisted: { Enlisted web.nodes listed list count },
}

impl Walk<'_> {
    ghost use Rattle.timing.specs.Inside.Walk.{Further};

    // Lists a synchronizer, unless it is listed already.
    fn enlist(&mut self, i: u16)
        requires { i < self.old.web.nodes }
        ensures further { Further self.old self.new }
        ensures listed { Listed (times_of self.new.list) self.new.count i }
    {
        let at = usize::from(i);
        if !self.listed[at] {
            self.listed[at] = true;
            self.list[self.count] = i;
            self.count += 1;
        }
    }

    // Stacks a synchronizer that no walk has seen.
    fn push(&mut self, i: u16)
        requires { i < self.old.web.nodes }
        ensures { Further self.old self.new }
    {
        let at = usize::from(i);
        if !self.seen[at] & (self.depth < self.web.nodes) {
            self.seen[at] = true;
            self.stack[self.depth] = i;
            self.ahead[self.depth] = self.web.first[at];
            self.depth += 1;
        }
    }

    // Behind the last arc that feeds a synchronizer. Nothing feeds a flip-flop: it departs when it departs.
    fn end(&self, i: usize) -> u16
        requires { i < NODES }
        ensures { result ≤ times_of self.now.web.first.now (i + 1) }
    {
        if self.web.latch[i] {
            self.web.first[i + 1]
        } else {
            0
        }
    }

    // One step: over the next arc that feeds the synchronizer on top; where there is none, that one is listed and leaves the stack.
    fn step(&mut self)
        requires { 0 < self.old.depth }
        ensures { Further self.old self.new }
    {
        let top = self.depth - 1;
        let i = self.stack[top];
        let a = self.ahead[top];
        if a < self.end(usize::from(i)) {
            self.ahead[top] = a + 1;
            self.push(self.web.source[usize::from(a)]);
        } else {
            self.depth = top;
            self.enlist(i);
        }
    }

    // The walk back from synchronizer i.
    fn explore(&mut self, i: u16)
        requires { i < self.old.web.nodes }
        ensures { Further self.old self.new }
    {
        self.push(i);
        for _ in 0..STEPS {
            if self.depth == 0 {
                return;
            }
            self.step();
        }
    }
}

// Lists all synchronizers.
pub(crate) fn arrange(web: &Web<'_>, order: &mut [u16; NODES])
    ensures order { Order web.now.nodes (times_of order.new) }
{
    let mut walk = Walk {
        web: *web,
        seen: [false; NODES],
        stack: [0; NODES],
        ahead: [0; NODES],
        depth: 0,
        listed: [false; NODES],
        list: [0; NODES],
        count: 0,
    };
    for i in 0..web.nodes {
        let node = i as u16;
        walk.explore(node);
        walk.enlist(node);
    }
    *order = walk.list;
}
