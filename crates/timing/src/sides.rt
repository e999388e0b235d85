// Both sides of a circuit, and when synchronizers depart on each: what results are made of.
ghost use Rattle.std.specs.Prelude.{◌≡◌, true, false};
ghost use Rattle.tables.specs.Inside.Net.{times_of, Ranged};

use crate::sizes::NODES;
use crate::web::Web;

// The same arcs lead in on both sides. All departures can be reckoned with.
#[derive(Clone, Copy)]
pub(crate) struct Sides<'a> {
    pub(crate) late: Web<'a>,
    pub(crate) early: Web<'a>,
    pub(crate) later: &'a [u64; NODES],
    pub(crate) sooner: &'a [u64; NODES],
    ghost sides: { (late.late ≡ true) × (early.late ≡ false) },
    ghost same: { (early.first.now ≡ late.first.now) × (early.nodes ≡ late.nodes) },
    ghost ranged: { Ranged late.nodes (times_of later.now) × Ranged early.nodes (times_of sooner.now) },
}
