// From a text to an image, or to what it is refused for.
ghost use Rattle.text.specs.TextPromise.{TextCall};
ghost use Rattle.std.specs.Prelude.{◌≡◌, ◌≤◌, ◌<◌, length, replicate, MatchOption, MatchResult};
ghost use Rattle.image.specs.Header.{most_bytes};
ghost use Rattle.text.specs.Inside.Handed.{Handed};
ghost use Rattle.grammar.specs.Text.{rank, longest_text, Fault};
ghost use Rattle.grammar.specs.Inside.Reader.{in_place};
ghost use Rattle.text.specs.Inside.Tally.{stage_number, Few, SoFar, Done, Faulty, header_from};

use crate::layout::{MOST, lay, put_header};
use crate::lines::read_line;
use crate::tally::{Stage, Tally};
use grammar::Line;
use image::{Header, Image, Part, Refusal, Rule, bad_counts, bad_cycle, check};

// The most bytes of a text.
pub const LONGEST: usize = 32_768;

// The stage at which lines of that kind begin. No plainer as a `From`, whose `from_gives` would say the same clause.
fn rank_of(line: Line) -> Stage
    ensures { stage_number result ≡ rank line }
{
    match line {
        Line::Cycle(_) => Stage::Start,
        Line::Phase(_) => Stage::Phases,
        Line::Synchronizer(_) => Stage::Synchronizers,
        Line::Arc(_) => Stage::Arcs,
    }
}

// May a line stand next?
fn in_place(stage: Stage, line: Line) -> bool
    ensures { result ≡ in_place (stage_number stage) line }
{
    if stage == Stage::Start {
        rank_of(line) == Stage::Start
    } else {
        stage <= rank_of(line)
    }
}

// The next line; `None` where none may stand next, and then nothing is laid out.
fn take_line(text: &[u8], t: Tally, room: &mut [u8; MOST]) -> Option<Tally>
    requires { (length text.now ≤ longest_text) × (t.at < length text.now) × SoFar text.now t room.old }
    ensures { MatchOption result (Fault text.now t.lines × (room.new ≡ room.old)) (λ u. (t.at < u.at) × SoFar text.now u room.new) }
{
    let read = read_line(text, t.at)?;
    if in_place(t.stage, read.line) {
        Some(lay(read.line, t, read.next, room))
    } else {
        None
    }
}

// All lines to the end of the text, or the lowest at fault. A text with no line is at fault too.
fn read_lines(text: &[u8], room: &mut [u8; MOST]) -> Result<Tally, Refusal>
    requires { (length text.now ≤ longest_text) × (room.old ≡ replicate most_bytes 0) }
    ensures { MatchResult result (λ t. Done text.now t room.new) (λ why. Faulty text.now why) }
{
    let mut t = Tally {
        end: Image::HEADER_BYTES as usize,
        ..Tally::default()
    };
    while t.at < text.len() {
        let Some(next) = take_line(text, t, room) else {
            return Err(Rule::Text.at(t.lines));
        };
        t = next;
    }
    if t.stage == Stage::Start {
        Err(Rule::Text.at(t.lines))
    } else {
        Ok(t)
    }
}

// What the header of an image with those counts says. An offset is far from what a word holds. No `From`: a conversion asks nothing, and this asks `Few`.
fn header_of(t: Tally) -> Header
    requires { Few t }
    ensures { result ≡ header_from t }
{
    Header {
        version: Image::VERSION,
        cycle: t.cycle,
        phases: t.phases,
        synchronizers: t.synchronizers,
        arcs: t.arcs,
        phase_table: Image::offset(Part::Phases, t.phases, t.synchronizers, t.arcs) as u32,
        synchronizer_table: Image::offset(
            Part::Synchronizers,
            t.phases,
            t.synchronizers,
            t.arcs,
        ) as u32,
        arc_table: Image::offset(Part::Arcs, t.phases, t.synchronizers, t.arcs) as u32,
    }
}

// Checks an image that has been laid out, and hands it over where the buffer is long enough.
fn hand_over(bytes: &[u8], image: &mut [u8]) -> Result<u32, Refusal>
    requires { length bytes.now ≤ most_bytes }
    ensures { Handed bytes.now image.old result image.new }
{
    check(bytes)?;
    if image.len() < bytes.len() {
        return Err(Rule::ImageBuffer.into());
    }
    image[..bytes.len()].copy_from_slice(bytes);
    Ok(bytes.len() as u32)
}

// How many bytes the image has; or the rule that refuses the text, with the line or the record at fault.
// Rules 3 and 4 are asked before there is an image, since there is no room for one that they refuse; all others are the check's.
pub fn image_from_text(text: &[u8], image: &mut [u8]) -> Result<u32, Refusal>
    ensures { TextCall text.now image.old result image.new }
{
    if LONGEST < text.len() {
        return Err(Rule::Text.into());
    }
    let mut room = [0u8; MOST];
    let t = read_lines(text, &mut room)?;
    let header = header_of(t);
    if bad_cycle(header) {
        return Err(Rule::Cycle.into());
    }
    if bad_counts(header) {
        return Err(Rule::Counts.into());
    }
    put_header(header, &mut room);
    let end = t.end;
    hand_over(&room[..end], image)
}
