// Lines: a word and its fields, parted by one space, to the line feed. The first byte of a line tells its kind.
ghost use Rattle.std.specs.Prelude.{◌≡◌};
ghost use Rattle.grammar.specs.Inside.Reader.{cycle_at, phase_at, synchronizer_at, arc_at, line_at};
ghost use Rattle.image.specs.Kind.{kind_number};

use crate::scan::{after_word, field};
use crate::windows::window;
use grammar::{Line, Read};
use image::{Arc, Kind, Phase, Synchronizer};

// tc N
#[tactic(auto, unfolding(grammar::specs::Inside::Reader::cycle_at, grammar::specs::Inside::Reader::and_then))]
fn cycle_line(text: &[u8], at: usize) -> Option<Read>
    ensures { result ≡ cycle_at text.now at }
{
    let next = after_word(text, at, b"tc")?;
    let cycle = field(text, next, b'\n')?;
    Some(Read {
        line: Line::Cycle(cycle.value),
        next: cycle.next,
    })
}

// phase E T
#[tactic(auto, unfolding(grammar::specs::Inside::Reader::phase_at, grammar::specs::Inside::Reader::and_then))]
fn phase_line(text: &[u8], at: usize) -> Option<Read>
    ensures { result ≡ phase_at text.now at }
{
    let next = after_word(text, at, b"phase")?;
    let closing = field(text, next, b' ')?;
    let active = field(text, closing.next, b'\n')?;
    Some(Read {
        line: Line::Phase(Phase {
            closing: closing.value,
            active: active.value,
        }),
        next: active.next,
    })
}

// P S H W, behind the word for the kind
#[tactic(auto, unfolding(grammar::specs::Inside::Reader::synchronizer_at, grammar::specs::Inside::Reader::and_then))]
fn synchronizer_line(text: &[u8], at: usize, word: &[u8], kind: Kind) -> Option<Read>
    ensures { result ≡ synchronizer_at (kind_number kind) word.now text.now at }
{
    let next = after_word(text, at, word)?;
    let phase = field(text, next, b' ')?;
    let setup = field(text, phase.next, b' ')?;
    let hold = field(text, setup.next, b' ')?;
    let delays = window(text, hold.next)?;
    Some(Read {
        line: Line::Synchronizer(Synchronizer {
            phase: phase.value,
            kind: kind.number(),
            setup: setup.value,
            hold: hold.value,
            least: delays.low,
            greatest: delays.high,
        }),
        next: delays.next,
    })
}

// arc FROM TO W
#[tactic(auto, unfolding(grammar::specs::Inside::Reader::arc_at, grammar::specs::Inside::Reader::and_then))]
fn arc_line(text: &[u8], at: usize) -> Option<Read>
    ensures { result ≡ arc_at text.now at }
{
    let next = after_word(text, at, b"arc")?;
    let from = field(text, next, b' ')?;
    let to = field(text, from.next, b' ')?;
    let delays = window(text, to.next)?;
    Some(Read {
        line: Line::Arc(Arc {
            from: from.value,
            to: to.value,
            least: delays.low,
            greatest: delays.high,
        }),
        next: delays.next,
    })
}

#[tactic(auto, unfolding(grammar::specs::Inside::Reader::line_at))]
pub(crate) fn read_line(text: &[u8], at: usize) -> Option<Read>
    ensures { result ≡ line_at text.now at }
{
    match *text.get(at)? {
        b't' => cycle_line(text, at),
        b'p' => phase_line(text, at),
        b'l' => synchronizer_line(text, at, b"latch", Kind::Latch),
        b'f' => synchronizer_line(text, at, b"flop", Kind::FlipFlop),
        b'a' => arc_line(text, at),
        _ => None,
    }
}
