// From the loaded tables to those of one side.
ghost use Rattle.std.specs.Prelude.{ℕ, ◌<◌};
ghost use Rattle.ticks.specs.Inside.Raised.{RAISE};
ghost use Rattle.tables.specs.Inside.Net.{Shaped, times_of, arcs_of, web_of};
ghost use Rattle.timing.specs.Inside.Web.{MadeOf};

use crate::sizes::{ARCS, FIRSTS, NODES};
use crate::web::Web;
use image::Image;

// The tables of one side, of which the leads are that side's own. It takes arrays, and no `Tables`: the launches there are lent to be raised while a side
// stands.
pub(crate) fn side<'a>(
    late: bool,
    image: Image,
    source: &'a [u16; ARCS],
    lead: &'a [u32; ARCS],
    first: &'a [u16; FIRSTS],
    latch: &'a [bool; NODES],
) -> Web<'a>
    requires shaped { Shaped (web_of (arcs_of source.now lead.now image.cycle) first.now latch.now) image.synchronizers image.arcs }
    requires leads { (a : ℕ) → a < image.arcs → times_of lead.now a < RAISE }
    ensures { MadeOf late image source.now lead.now first.now latch.now result }
{
    Web {
        late,
        source,
        lead,
        cycle: image.cycle,
        first,
        latch,
        nodes: image.synchronizers as usize,
        arcs: image.arcs as usize,
    }
}
