// Is an image good, and if not, by which rule is it refused?
ghost use Rattle.std.specs.Prelude.{◌≡◌};
ghost use Rattle.image.specs.Checks.{check_of, records_of};

use crate::header::{Header, Image};
use crate::refusal::{Refusal, Rule};
use crate::rules::{
    arcs_good, bad_arc, bad_counts, bad_cycle, bad_layout, bad_order, bad_phase, bad_synchronizer,
    lowest, synchronizers_good,
};

// Rules 6 to 9: each goes through its whole table before the next is asked.
fn check_records(bytes: &[u8], image: Image) -> Result<Image, Refusal>
    ensures { result ≡ records_of bytes.now image }
{
    if let Some(phase) = lowest(image.phases, |i| bad_phase(bytes, image, i)) {
        return Err(Rule::Phases.at(phase));
    }
    // A good image ends here. Of another, the searches below find what it breaks.
    if synchronizers_good(bytes, image) && arcs_good(bytes, image) {
        return Ok(image);
    }
    if let Some(synchronizer) = lowest(image.synchronizers, |i| bad_synchronizer(bytes, image, i)) {
        return Err(Rule::Synchronizers.at(synchronizer));
    }
    if let Some(arc) = lowest(image.arcs, |i| bad_arc(bytes, image, i)) {
        return Err(Rule::Arcs.at(arc));
    }
    if let Some(unordered) = lowest(image.arcs, |i| bad_order(bytes, image, i)) {
        return Err(Rule::Order.at(unordered));
    }
    Ok(image)
}

const HEADER: usize = Image::HEADER_BYTES as usize;

// What a good image says of itself; or the rule that refuses it (docs/RULES.md), with the lowest record at fault.
#[tactic(auto, unfolding(crate::specs::Checks::check_of))]
pub fn check(bytes: &[u8]) -> Result<Image, Refusal>
    ensures { result ≡ check_of bytes.now }
{
    if bytes.len() < HEADER {
        return Err(Rule::Length.into());
    }
    let header = Header::read(bytes);
    if header.version != Image::VERSION {
        return Err(Rule::Version.into());
    }
    if bad_cycle(header) {
        return Err(Rule::Cycle.into());
    }
    if bad_counts(header) {
        return Err(Rule::Counts.into());
    }
    if bad_layout(header, bytes.len() as u64) {
        return Err(Rule::Layout.into());
    }
    check_records(bytes, Image::of(header))
}
