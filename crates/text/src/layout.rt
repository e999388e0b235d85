// The image is laid out in a room for the largest. Lines come in the order of the tables, so each record goes behind the one before. Where a
// text has more records than an image may have, those without room are only counted.
ghost use Rattle.std.specs.Prelude.{◌≡◌, ◌+◌, ◌*◌, ◌≤◌, length};
ghost use Rattle.grammar.specs.Inside.Rows.{words_of};
ghost use Rattle.text.specs.Inside.Stores.{furthest, stored, stored_all, behind_words, words_in};
ghost use Rattle.text.specs.Inside.Tally.{tallied, Few};

use crate::tally::{Stage, Tally};
use grammar::Line;
use image::{Header, Image};

pub(crate) const MOST: usize = Image::MOST_BYTES as usize;

// A word, where it has room.
#[tactic(auto, unfolding(crate::specs::Inside::Stores::stored))]
fn put(word: u32, at: usize, room: &mut [u8; MOST])
    requires { at ≤ furthest }
    ensures { room.new ≡ stored room.old at word }
{
    if at + 4 <= MOST {
        room[at..at + 4].copy_from_slice(&word.to_le_bytes());
    }
}

// Words one behind the other, and the place behind them. No plainer with `zip` for the places: the last of them is the answer.
// Room and place stay two parameters. No plainer as a struct: that the place lies near enough follows from the lines counted (`Few`), so each method
// would ask for what is asked here.
fn put_all(words: &[u32], at: usize, room: &mut [u8; MOST]) -> usize
    requires { at + 4 * length words.now ≤ furthest }
    ensures behind { result ≡ behind_words at words.now }
    ensures stored { room.new ≡ stored_all room.old at words.now }
{
    let mut next = at;
    for &word in words {
        put(word, next, room);
        next += 4;
    }
    next
}

// A line is counted, and its record put behind those before.
pub(crate) fn lay(line: Line, t: Tally, next: usize, room: &mut [u8; MOST]) -> Tally
    requires { Few t }
    ensures counted { result ≡ tallied line t next }
    ensures laid { room.new ≡ stored_all room.old t.end (words_of line) }
{
    let counted = Tally {
        at: next,
        lines: t.lines + 1,
        ..t
    };
    match line {
        Line::Cycle(cycle) => Tally {
            stage: Stage::Phases,
            cycle,
            ..counted
        },
        Line::Phase(phase) => Tally {
            stage: Stage::Phases,
            end: put_all(&[phase.closing, phase.active], t.end, room),
            phases: t.phases + 1,
            ..counted
        },
        Line::Synchronizer(synchronizer) => {
            let words = [
                synchronizer.phase,
                synchronizer.kind,
                synchronizer.setup,
                synchronizer.hold,
                synchronizer.least,
                synchronizer.greatest,
            ];
            Tally {
                stage: Stage::Synchronizers,
                end: put_all(&words, t.end, room),
                synchronizers: t.synchronizers + 1,
                ..counted
            }
        }
        Line::Arc(arc) => Tally {
            stage: Stage::Arcs,
            end: put_all(&[arc.from, arc.to, arc.least, arc.greatest], t.end, room),
            arcs: t.arcs + 1,
            ..counted
        },
    }
}

pub(crate) fn put_header(header: Header, room: &mut [u8; MOST])
    ensures { room.new ≡ stored_all room.old 0 (words_in header) }
{
    let words = [
        header.version,
        header.cycle,
        header.phases,
        header.synchronizers,
        header.arcs,
        header.phase_table,
        header.synchronizer_table,
        header.arc_table,
    ];
    put_all(&words, 0, room);
}
