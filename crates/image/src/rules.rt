// Rules 3 to 9 of docs/RULES.md, as tests. Each gives what the definition of the same name in specs/Rules.antt gives.
// The tests of one rule are joined by `|` and `&`, which ask all of them: the code is then one expression, as the rule is.
// Bytes and image stay two parameters. No plainer as a struct: each clause would say `self.now.bytes.now self.now.image` for `bytes.now image`.
ghost use Rattle.std.specs.Prelude.{◌≡◌, ℕ, Bool, true, ◌-◌};
ghost use Rattle.image.specs.declared.refusal.Rule.TheVariants.{Synchronizers, Arcs, Order};
ghost use Rattle.image.specs.Rules.{bad_cycle, bad_counts, bad_layout, bad_phase, synchronizer_fails, bad_synchronizer};
ghost use Rattle.image.specs.Rules.{arc_fails, bad_arc, bad_order, lowest_found};
ghost use Rattle.image.specs.Inside.NoneBreaks.{NoneBreaks};

use crate::header::{Header, Image, Part};
use crate::kind::Kind;
use crate::numbered::Record;
use crate::records::{Arc, Phase, Synchronizer};

pub fn bad_cycle(header: Header) -> bool
    ensures { result ≡ bad_cycle header }
{
    (header.cycle < 1) | (Image::LONGEST_CYCLE < header.cycle)
}

pub fn bad_counts(header: Header) -> bool
    ensures { result ≡ bad_counts header }
{
    (header.phases < 1)
        | (Image::MOST_PHASES < header.phases)
        | (Image::MOST_SYNCHRONIZERS < header.synchronizers)
        | (Image::MOST_ARCS < header.arcs)
}

pub(crate) fn bad_layout(header: Header, length: u64) -> bool
    ensures { result ≡ bad_layout header length }
{
    let k = header.phases;
    let l = header.synchronizers;
    let m = header.arcs;
    ((header.phase_table as u64) != Image::offset(Part::Phases, k, l, m))
        | ((header.synchronizer_table as u64) != Image::offset(Part::Synchronizers, k, l, m))
        | ((header.arc_table as u64) != Image::offset(Part::Arcs, k, l, m))
        | (length != Image::offset(Part::End, k, l, m))
}

#[tactic(auto, unfolding(crate::specs::Rules::bad_phase))]
pub(crate) fn bad_phase(bytes: &[u8], image: Image, i: u32) -> bool
    ensures { result ≡ bad_phase bytes.now image i }
{
    let phase = Phase::read(bytes, image.layout, i);
    let earlier = Phase::read(bytes, image.layout, i.saturating_sub(1));
    (image.cycle < phase.active)
        | (image.cycle < phase.closing)
        | ((0 < i) & (phase.closing < earlier.closing))
        | (((i as u64) + 1 == (image.phases as u64)) & (phase.closing != image.cycle))
}

// Rule 7 of a synchronizer that has been read.
fn bad_window(s: Synchronizer, image: Image) -> bool
    ensures { result ≡ synchronizer_fails image s }
{
    (image.phases <= s.phase)
        | Kind::try_from(s.kind).is_err()
        | (image.cycle < s.setup)
        | (image.cycle < s.hold)
        | (s.greatest < s.least)
        | (Image::LONGEST_DELAY < s.greatest)
}

#[tactic(auto, unfolding(crate::specs::Rules::bad_synchronizer))]
pub(crate) fn bad_synchronizer(bytes: &[u8], image: Image, i: u32) -> bool
    ensures { result ≡ bad_synchronizer bytes.now image i }
{
    bad_window(Synchronizer::read(bytes, image.layout, i), image)
}

// Rule 8 of an arc that has been read, where there are l synchronizers.
fn bad_fields(a: Arc, l: u32) -> bool
    ensures { result ≡ arc_fails l a }
{
    (l <= a.from) | (l <= a.to) | (a.greatest < a.least) | (Image::LONGEST_DELAY < a.greatest)
}

#[tactic(auto, unfolding(crate::specs::Rules::bad_arc))]
pub(crate) fn bad_arc(bytes: &[u8], image: Image, i: u32) -> bool
    ensures { result ≡ bad_arc bytes.now image i }
{
    bad_fields(Arc::read(bytes, image.layout, i), image.synchronizers)
}

#[tactic(auto, unfolding(crate::specs::Rules::bad_order))]
pub(crate) fn bad_order(bytes: &[u8], image: Image, i: u32) -> bool
    ensures { result ≡ bad_order bytes.now image i }
{
    let arc = Arc::read(bytes, image.layout, i);
    let earlier = Arc::read(bytes, image.layout, i.saturating_sub(1));
    (0 < i) & ((arc.to, arc.from) <= (earlier.to, earlier.from))
}

// The lowest number below a count that a test finds bad; none where it finds none bad.
pub(crate) fn lowest<F: Fn(u32) -> bool>(count: u32, bad: F) -> Option<u32>
    requires { F.IsAlwaysCallable bad }
    ensures { (test : ℕ → Bool) → ((i : ℕ) (r : Bool) → F.post bad i r → r ≡ test i) → result ≡ lowest_found test count }
{
    (0..count).find(|&i| bad(i))
}

// Is it plain that no synchronizer breaks rule 7? A good image is told by this and `arcs_good`, with one look at each record. Where the
// answer is no, `lowest` finds the rule and the record.
pub(crate) fn synchronizers_good(bytes: &[u8], image: Image) -> bool
    ensures { result ≡ true → NoneBreaks bytes.now image Synchronizers }
{
    (0..image.synchronizers).all(|i| !bad_window(Synchronizer::of(bytes, image, i), image))
}

// Is it plain that no arc breaks rule 8 or rule 9? Each arc is read once, and asked both. Of the arc before, its key is kept: one number,
// in which `to` weighs more than any `from`, so that arcs are in order where their keys rise. No key may be below `next`.
pub(crate) fn arcs_good(bytes: &[u8], image: Image) -> bool
    ensures { result ≡ true → NoneBreaks bytes.now image Arcs × NoneBreaks bytes.now image Order }
{
    let mut next: u64 = 0;
    for i in 0..image.arcs {
        let arc = Arc::of(bytes, image, i);
        let key = 4_294_967_296 * (arc.to as u64) + (arc.from as u64);
        if bad_fields(arc, image.synchronizers) | (key < next) {
            return false;
        }
        next = key + 1;
    }
    true
}
