// The path question: over which arcs a late arrival came.
ghost use Rattle.circuit.specs.Circuit.{circuit_of};
ghost use Rattle.timing.specs.Inside.Loaded.{LoadedInto};
ghost use Rattle.timing.specs.PathPromise.{Asked, PathCall};

use crate::good::Good;
use crate::load::load;
use crate::loaded::Tables;
use crate::ranks::Settled;
use crate::side::side;
use crate::sizes::NODES;
use crate::trail::{Path, Ranking};
use image::{Refusal, Rule};

// Asks loaded tables: does an arc lead in, does a ring grow? If not, the path is written.
fn seek(good: &Good<'_>, tables: &Tables, i: usize, arcs: &mut [u32]) -> Result<Path, Refusal>
    requires asked { Asked good.now.bytes.now i arcs.old }
    requires loaded { LoadedInto (circuit_of good.now.bytes.now) tables.now }
    ensures { PathCall good.now.bytes.now i arcs.old result arcs.new }
{
    let web = side(
        true,
        good.image,
        &tables.source,
        &tables.late,
        &tables.first,
        &tables.latch,
    );
    if web.first[i] == web.first[i + 1] {
        return Err(Rule::NothingEnters.into());
    }
    let mut departs = tables.launch;
    let mut ring = [0u32; NODES];
    if web.rise(&mut departs, &mut ring).is_some() {
        return Err(Rule::GrowingLoop.into());
    }
    let settled = Settled {
        web,
        launch: &tables.launch,
        departs: &departs,
    };
    let ranks = settled.ranks();
    let ranking = Ranking {
        web,
        departs: &departs,
        ranks: &ranks,
    };
    Ok(ranking.trace(i, arcs))
}

// Loads a good image into tables of its own. The buffer is long enough, and there is a synchronizer i.
fn open(good: &Good<'_>, i: usize, arcs: &mut [u32]) -> Result<Path, Refusal>
    requires { Asked good.now.bytes.now i arcs.old }
    ensures { PathCall good.now.bytes.now i arcs.old result arcs.new }
{
    let mut tables = Tables::empty();
    load(good, &mut tables);
    seek(good, &tables, i, arcs)
}

// A good image: is the buffer long enough, and is there such a synchronizer?
fn ask(good: &Good<'_>, synchronizer: u32, arcs: &mut [u32]) -> Result<Path, Refusal>
    ensures { PathCall good.now.bytes.now synchronizer arcs.old result arcs.new }
{
    if arcs.len() < good.image.synchronizers as usize {
        return Err(Rule::ArcBuffer.into());
    }
    if synchronizer >= good.image.synchronizers {
        return Err(Rule::NoSynchronizer.into());
    }
    open(good, synchronizer as usize, arcs)
}

// Which way the late arrival at a synchronizer came. Every image gets an answer, and a refusal changes nothing that was lent.
pub fn path(bytes: &[u8], synchronizer: u32, arcs: &mut [u32]) -> Result<Path, Refusal>
    ensures { PathCall bytes.now synchronizer arcs.old result arcs.new }
{
    let image = image::check(bytes)?;
    ask(&Good { bytes, image }, synchronizer, arcs)
}
