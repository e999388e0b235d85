// Loading: from the records of a good image to the tables that the engine works on.
ghost use Rattle.std.specs.Prelude.{cond, Ok, ◌≡◌, ◌+◌, ◌-◌, ◌≤◌, ◌<◌, eqb, length};
ghost use Rattle.circuit.specs.Circuit.{Circuit, circuit_of};
ghost use Rattle.circuit.specs.Clock.{tick};
ghost use Rattle.tables.specs.Inside.Filled.{Filled};
ghost use Rattle.timing.specs.Inside.Loaded.{Launched, Noted, shift_of, LoadedArc, Spread, LoadedNodes, LoadedArcs, LoadedFirst, LoadedInto};
ghost use Rattle.tables.specs.Inside.Sizes.{ARCS, FIRSTS, NODES, PHASES};

use crate::good::Good;
use crate::loaded::Tables;
use crate::signed::RAISE;
use crate::sizes::{FIRSTS, NODES, PHASES};
use image::{Arc, Kind, Phase, Record, Synchronizer};

// What the arcs need of the phases and of the synchronizers. Nothing else uses it. An array is a column, as in `Filled` of the crate `tables`.
// How far it is filled (`Filled`, `Noted`) is said step by step, and is no fact of the type, which begins empty.
#[derive(Drop)]
struct Notes {
    // Of a phase: the tick of the cycle at which it closes, and how long it is active before that.
    ticks: [u32; PHASES],
    active: [u32; PHASES],
    // Of a synchronizer: its phase and its delays.
    phase: [u8; NODES],
    least: [u32; NODES],
    greatest: [u32; NODES],
}

// A synchronizer: its launch, raised, and whether it is a latch; and what its arcs need, its phase and its delays.
#[derive(Clone, Copy)]
struct Node {
    launch: u64,
    latch: bool,
    phase: u8,
    least: u32,
    greatest: u32,
}

// An arc: the synchronizers that it leaves and enters, and its late and early weights with a cycle added.
#[derive(Clone, Copy)]
struct Lead {
    source: u16,
    target: usize,
    late: u32,
    early: u32,
}

// The tick of the cycle at which a phase closes: Tc is tick 0 of the next cycle.
fn tick(cycle: u32, closing: u32) -> u32
    ensures { result ≡ cond (eqb closing cycle) 0 closing }
{
    if closing == cycle { 0 } else { closing }
}

// When each phase closes, as a tick of the cycle, and how long it is active before that.
fn load_phases(good: &Good<'_>, notes: &mut Notes)
    ensures ticks_filled { let c : Circuit = circuit_of good.now.bytes.now in Filled PHASES (tick c) notes.new.ticks c.phases }
    ensures active_filled { let c : Circuit = circuit_of good.now.bytes.now in Filled PHASES c.active notes.new.active c.phases }
{
    let image = good.image;
    for p in 0..image.phases {
        let phase = Phase::read(good.bytes, image.layout, p);
        notes.ticks[p as usize] = tick(image.cycle, phase.closing);
        notes.active[p as usize] = phase.active;
    }
}

// A synchronizer's launch: the opening of a latch, the cycle for a flip-flop.
fn launched(good: &Good<'_>, notes: &Notes, i: u32) -> Node
    requires i_lt_synchronizers { i < good.now.image.synchronizers }
    requires active_filled { let c : Circuit = circuit_of good.now.bytes.now in Filled PHASES c.active notes.now.active c.phases }
    ensures launched { Launched (circuit_of good.now.bytes.now) i result.launch result.latch }
    ensures phase_value { let c : Circuit = circuit_of good.now.bytes.now in (result.phase ≡ c.phase i) × (result.least ≡ c.least i) × (result.greatest ≡ c.greatest i) }
{
    let s = Synchronizer::of(good.bytes, good.image, i);
    let raised = RAISE + (good.image.cycle as u64);
    // By the number. Tried with a match on the kind: its way for a flip-flop lacks that the number is no latch's, and the goal stays open.
    let (launch, latch) = if s.kind == Kind::Latch.number() {
        (raised - (notes.active[s.phase as usize] as u64), true)
    } else {
        (raised, false)
    };
    Node {
        launch,
        latch,
        phase: s.phase as u8,
        least: s.least,
        greatest: s.greatest,
    }
}

fn load_nodes(good: &Good<'_>, notes: &mut Notes, tables: &mut Tables)
    requires ticks_filled { let c : Circuit = circuit_of good.now.bytes.now in Filled PHASES (tick c) notes.old.ticks c.phases }
    requires active_filled { let c : Circuit = circuit_of good.now.bytes.now in Filled PHASES c.active notes.old.active c.phases }
    ensures loaded_nodes { LoadedNodes (circuit_of good.now.bytes.now) tables.new.launch tables.new.latch }
    ensures noted { Noted (circuit_of good.now.bytes.now) notes.new }
{
    for i in 0..good.image.synchronizers {
        let node = launched(good, notes, i);
        let at = i as usize;
        tables.launch[at] = node.launch;
        tables.latch[at] = node.latch;
        notes.phase[at] = node.phase;
        notes.least[at] = node.least;
        notes.greatest[at] = node.greatest;
    }
}

// The shift (docs/RULES.md, "The equations") from a phase that closes at tick x to one that closes at tick y: to the next y after x. The numbers of
// the phases are not asked.
fn shift(cycle: u32, x: u32, y: u32) -> u32
    requires { x ≤ cycle }
    ensures { result ≡ shift_of cycle x y }
{
    if x < y { y - x } else { cycle - (x - y) }
}

// An arc's leads: delay + cycle - shift, which is never below zero, as no shift exceeds the cycle.
fn led(good: &Good<'_>, notes: &Notes, a: u32) -> Lead
    requires a_lt_arcs { a < good.now.image.arcs }
    requires noted { Noted (circuit_of good.now.bytes.now) notes.now }
    ensures loaded_arc { LoadedArc (circuit_of good.now.bytes.now) a result.source result.late result.early }
    ensures target_value { let c : Circuit = circuit_of good.now.bytes.now in result.target ≡ c.to a }
{
    let arc = Arc::of(good.bytes, good.image, a);
    let from = arc.from as usize;
    let to = arc.to as usize;
    let p = notes.phase[from];
    let q = notes.phase[to];
    let cycle = good.image.cycle;
    let back = cycle - shift(cycle, notes.ticks[p as usize], notes.ticks[q as usize]);
    Lead {
        source: from as u16,
        target: to,
        late: notes.greatest[from] + arc.greatest + back,
        early: notes.least[from] + arc.least + back,
    }
}

// No arc before a enters a synchronizer above `from`, and none from a on enters one below `to`: the arcs into those between begin at a.
fn enter(first: &mut [u16; FIRSTS], from: usize, to: usize, a: u16)
    requires { to ≤ NODES }
    ensures { Spread first.old from to a first.new }
{
    for i in from..to {
        first[i + 1] = a;
    }
}

// The arcs lie in the order of the synchronizers that they enter, so those into i are the ones from first[i] up to first[i + 1].
fn load_arcs(good: &Good<'_>, notes: &Notes, tables: &mut Tables)
    requires noted { Noted (circuit_of good.now.bytes.now) notes.now }
    requires loaded_nodes { LoadedNodes (circuit_of good.now.bytes.now) tables.old.launch tables.old.latch }
    ensures { LoadedInto (circuit_of good.now.bytes.now) tables.new }
{
    let image = good.image;
    tables.first[0] = 0;
    let mut entered: usize = 0;
    for a in 0..image.arcs {
        let lead = led(good, notes, a);
        let at = a as usize;
        tables.source[at] = lead.source;
        tables.late[at] = lead.late;
        tables.early[at] = lead.early;
        enter(&mut tables.first, entered, lead.target, at as u16);
        entered = lead.target;
    }
    enter(
        &mut tables.first,
        entered,
        image.synchronizers as usize,
        image.arcs as u16,
    );
}

// Fills the tables from a good image, of which it reads every record once.
pub(crate) fn load(good: &Good<'_>, tables: &mut Tables)
    ensures { LoadedInto (circuit_of good.now.bytes.now) tables.new }
{
    // A copy of where the image lies stays in registers: the loops do not read it again.
    let good = *good;
    let mut notes = Notes {
        ticks: [0; PHASES],
        active: [0; PHASES],
        phase: [0; NODES],
        least: [0; NODES],
        greatest: [0; NODES],
    };
    load_phases(&good, &mut notes);
    load_nodes(&good, &mut notes, tables);
    load_arcs(&good, &notes, tables);
}
