// The call that everything is for.
ghost use Rattle.circuit.specs.Circuit.{circuit_of};
ghost use Rattle.timing.specs.Inside.Loaded.{LoadedInto};
ghost use Rattle.timing.specs.TimingPromise.{Served, Timing};

use crate::good::Good;
use crate::load::load;
use crate::loaded::Tables;
use crate::results::write_results;
use crate::side::side;
use crate::sides::Sides;
use image::{Refusal, Rule};

// A growing loop, with the number of its arcs and its gain; or timed, with the numbers of missed setups and of missed holds. No plainer by a `From` for
// `Ring` and `Missed`, which are inside: two fields each, named once where they are made.
#[derive(Clone, Copy, Debug, PartialEq, Eq)]
pub enum Answer {
    Growing { arcs: u32, gain: i64 },
    Timed { setups: u32, holds: u32 },
}

// Works out the late departures on loaded tables; then shows the ring that grows, or works the early ones out from the launches on, and writes the
// results. The buffers are long enough. Where late departures fit no early ring grows: the arc buffer stays.
fn decide(good: &Good<'_>, tables: &mut Tables, results: &mut [i64], arcs: &mut [u32]) -> Answer
    requires served { Served good.now.bytes.now results.old arcs.old }
    requires loaded { LoadedInto (circuit_of good.now.bytes.now) tables.old }
    ensures { Timing good.now.bytes.now results.old arcs.old (Ok result) results.new arcs.new }
{
    let late = side(
        true,
        good.image,
        &tables.source,
        &tables.late,
        &tables.first,
        &tables.latch,
    );
    let mut later = tables.launch;
    if let Some(ring) = late.rise(&mut later, arcs) {
        return Answer::Growing {
            arcs: ring.count,
            gain: ring.gain,
        };
    }
    let early = side(
        false,
        good.image,
        &tables.source,
        &tables.early,
        &tables.first,
        &tables.latch,
    );
    early.rise(&mut tables.launch, arcs);
    let sides = Sides {
        late,
        early,
        later: &later,
        sooner: &tables.launch,
    };
    let missed = write_results(good, &sides, results);
    Answer::Timed {
        setups: missed.setups,
        holds: missed.holds,
    }
}

// Loads a good image into tables of its own. The buffers are long enough.
fn work(good: &Good<'_>, results: &mut [i64], arcs: &mut [u32]) -> Answer
    requires { Served good.now.bytes.now results.old arcs.old }
    ensures { Timing good.now.bytes.now results.old arcs.old (Ok result) results.new arcs.new }
{
    let mut tables = Tables::empty();
    load(good, &mut tables);
    decide(good, &mut tables, results, arcs)
}

// A good image: are the buffers long enough?
fn serve(good: &Good<'_>, results: &mut [i64], arcs: &mut [u32]) -> Result<Answer, Refusal>
    ensures { Timing good.now.bytes.now results.old arcs.old result results.new arcs.new }
{
    let l = good.image.synchronizers as usize;
    if results.len() < 6 * l {
        return Err(Rule::ResultBuffer.into());
    }
    if arcs.len() < l {
        return Err(Rule::ArcBuffer.into());
    }
    Ok(work(good, results, arcs))
}

// Times a circuit. Every image gets an answer, and a refusal changes nothing that was lent.
pub fn timing(bytes: &[u8], results: &mut [i64], arcs: &mut [u32]) -> Result<Answer, Refusal>
    ensures { Timing bytes.now results.old arcs.old result results.new arcs.new }
{
    let image = image::check(bytes)?;
    serve(&Good { bytes, image }, results, arcs)
}
