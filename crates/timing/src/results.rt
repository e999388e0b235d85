// What timing writes of each synchronizer: its six numbers, and the counts of missed checks. Times come raised.
ghost use Rattle.std.specs.Prelude.{◌≡◌, unwrap_or, ◌+◌, ◌*◌, ◌≤◌, ◌<◌, length, cond};
ghost use Rattle.std.proofs.lemmas.List.Edits.{sets};
ghost use Rattle.ticks.specs.Inside.Raised.{lower, SIGNED};
ghost use Rattle.circuit.specs.Circuit.{Circuit, circuit_of};
ghost use Rattle.circuit.specs.Times.{mark};
ghost use Rattle.tables.specs.Inside.Net.{times_of};
ghost use Rattle.tables.specs.Inside.Models.{lowered};
ghost use Rattle.timing.specs.Inside.Results.{arrivals_of, below_zero, setup_by, hold_by, six_of, Tellable, Writable, Added, Written};

use crate::good::Good;
use crate::sides::Sides;
use crate::signed::{RAISE, minus};
use image::{Record, Synchronizer};

// What stands where no arc leads in: `mark` of circuit/specs/Times, and of the C header.
const MARK: i64 = i64::MAX;

// When the arcs into a synchronizer bring it something: the last time and the first.
#[derive(Clone, Copy)]
pub(crate) struct Arrivals {
    pub(crate) late: u64,
    pub(crate) early: u64,
}

// How many checks are missed.
#[derive(Clone, Copy)]
pub(crate) struct Missed {
    pub(crate) setups: u32,
    pub(crate) holds: u32,
}

// If an arc leads into synchronizer i: two walks over the arcs that do, one for each side.
pub(crate) fn arrivals_of(sides: &Sides<'_>, i: usize) -> Option<Arrivals>
    requires { i < sides.now.late.nodes }
    ensures value { result ≡ arrivals_of sides.now i }
    ensures tellable { Tellable result }
{
    let from = usize::from(sides.late.first[i]);
    let to = usize::from(sides.late.first[i + 1]);
    if from == to {
        return None;
    }
    Some(Arrivals {
        late: sides.late.arrival(sides.later, from, to),
        early: sides.early.arrival(sides.sooner, from, to),
    })
}

// The time that a raised one stands for.
fn time(t: u64) -> i64
    requires { t < SIGNED }
    ensures { result ≡ lower t }
{
    minus(t, RAISE)
}

// Early arrival - H. This and the next are two formulas: no plainer as one with what differs handed in.
fn hold_slack(arrival: u64, hold: u32) -> i64
    requires { arrival < SIGNED }
    ensures { result ≡ hold_by hold (lower arrival) }
{
    minus(arrival, RAISE + u64::from(hold))
}

// Tc - S - late arrival.
fn setup_slack(arrival: u64, cycle: u32, setup: u32) -> i64
    requires { arrival < SIGNED }
    ensures { result ≡ setup_by cycle setup (lower arrival) }
{
    minus(RAISE + u64::from(cycle) - u64::from(setup), arrival)
}

fn or_mark(number: Option<i64>) -> i64
    ensures { result ≡ unwrap_or number mark }
{
    number.unwrap_or(MARK)
}

// Is the slack below zero?
fn is_missed(slack: Option<i64>) -> bool
    ensures { result ≡ below_zero slack }
{
    slack.is_some_and(|s| s < 0)
}

// Early and late departure, early and late arrival, hold slack and setup slack.
fn six(
    sooner: u64,
    later: u64,
    arrivals: Option<Arrivals>,
    hold: Option<i64>,
    setup: Option<i64>,
) -> [i64; 6]
    requires tellable { Tellable arrivals }
    requires bound { (sooner < SIGNED) × (later < SIGNED) }
    ensures { result ≡ six_of sooner later arrivals hold setup }
{
    [
        time(sooner),
        time(later),
        or_mark(arrivals.map(|a| time(a.early))),
        or_mark(arrivals.map(|a| time(a.late))),
        or_mark(hold),
        or_mark(setup),
    ]
}

// Synchronizer i: its six numbers, and the counts with its checks.
fn write_one(good: &Good<'_>, sides: &Sides<'_>, i: usize, m: Missed, results: &mut [i64]) -> Missed
    requires writable { Writable good.now.bytes.now sides.now }
    requires room { 6 * sides.now.late.nodes ≤ length results.old }
    requires here { i < sides.now.late.nodes }
    requires setups_le_i { (m.setups ≤ i) × (m.holds ≤ i) }
    ensures { let c : Circuit = circuit_of good.now.bytes.now in Added c (lowered (times_of sides.now.later.now)) (lowered (times_of sides.now.sooner.now)) i results.old results.new m result }
{
    let image = good.image;
    let s = Synchronizer::read(good.bytes, image.layout, i as u32);
    let arrivals = arrivals_of(sides, i);
    let hold = arrivals.map(|a| hold_slack(a.early, s.hold));
    let setup = arrivals.map(|a| setup_slack(a.late, image.cycle, s.setup));
    let numbers = six(sides.sooner[i], sides.later[i], arrivals, hold, setup);
    results[6 * i..6 * i + 6].copy_from_slice(&numbers);
    Missed {
        setups: m.setups + u32::from(is_missed(setup)),
        holds: m.holds + u32::from(is_missed(hold)),
    }
}

// The six numbers of every synchronizer, and how many checks are missed. What lies past them in the buffer stays.
pub(crate) fn write_results(good: &Good<'_>, sides: &Sides<'_>, results: &mut [i64]) -> Missed
    requires writable { Writable good.now.bytes.now sides.now }
    requires room { 6 * sides.now.late.nodes ≤ length results.old }
    ensures { let c : Circuit = circuit_of good.now.bytes.now in Written c (lowered (times_of sides.now.later.now)) (lowered (times_of sides.now.sooner.now)) results.old results.new result }
{
    let mut missed = Missed {
        setups: 0,
        holds: 0,
    };
    for i in 0..sides.late.nodes {
        missed = write_one(good, sides, i, missed, results);
    }
    missed
}
