// Runs timing and path on circuits whose answers are known, so that the two calls can be held against a second source.
// tests/timing_cases.py makes the circuits, works out by docs/RULES.md what each call must give, and writes both files: stdin and stdout.
//
// Standard input holds frames. A frame is six words of 32 bits: the length of a name, the length of an image, how many places of a result
// buffer and of an arc buffer are lent, and the first and the end of the synchronizer numbers that paths are asked for. The bytes of the
// name and of the image follow. Where a frame is longer than the buffers, or the input ends inside it, a line says so and the run ends.
//
// For each frame are printed: the name; what timing answers, `timed SETUPS HOLDS`, `loop ARCS GAIN:` or `refused NUMBER RECORD`; and for each
// number asked `path NUMBER launch SYNCHRONIZER arcs ARCS:` or `path NUMBER refused NUMBER RECORD`. Every place of a lent buffer that changed
// is printed too, and no other: those of the arc buffer behind the answer, results below it, six a line behind the number of the
// line, `-` for the mark. Where a place changed and one before it stayed, its number is printed first, as `@7`.
#![tactic(auto)]

ghost use Rattle.std.specs.Prelude.{◌≤◌};

use std::io::{Read, Write};
use std::{fmt, io};
use streams::read_full;
use timing::Answer;

const LONGEST_NAME: usize = 64;

const LONGEST_IMAGE: usize = 65_536;

// A circuit has at most 3,072 results and a path at most 512 arcs; more can be lent.
const MOST_RESULTS: usize = 3_100;

const MOST_ARCS: usize = 600;

// Where no arc leads in: `mark` of circuit/specs/Times.
const MARK: i64 = i64::MAX;

// What stands in every place that is lent. But for the mark no result is 2^41 or more in size, and no arc has so great a number.
const STAYED: i64 = -4_611_686_018_427_387_904;

const ARC_STAYED: u32 = u32::MAX;

// A gain, as it is printed: a number, or a dash for the mark.
#[derive(Clone, Copy)]
struct Printed(i64);

impl fmt::Display for Printed {
    fn fmt<W: fmt::Write>(&self, f: &mut fmt::Formatter<W>) -> fmt::Result {
        if self.0 == MARK {
            return write!(f, "-");
        }
        write!(f, "{}", self.0)
    }
}

// Before the place i, where all before `next` is said: says its number if places between stayed.
fn say_gap<W: Write>(output: &mut W, i: usize, next: usize) -> io::Result<()> {
    if i != next {
        write!(output, " @{i}")?;
    }
    Ok(())
}

// The arcs that changed.
fn say_arcs<W: Write>(output: &mut W, arcs: &[u32]) -> io::Result<()> {
    let mut next = 0;
    for (i, &arc) in arcs.iter().enumerate() {
        if arc != ARC_STAYED {
            say_gap(output, i, next)?;
            write!(output, " {arc}")?;
            next = i + 1;
        }
    }
    Ok(())
}

// The results that changed. No plainer as one function with `say_arcs`: lines begin here and a mark is told, so only the loop would be left.
fn say_results<W: Write>(output: &mut W, results: &[i64]) -> io::Result<()> {
    let mut next = 0;
    for (i, &result) in results.iter().enumerate() {
        if result != STAYED {
            if i % 6 == 0 {
                write!(output, "\n{}", i / 6)?;
            }
            say_gap(output, i, next)?;
            // A mark in one piece, since each piece is a write of its own.
            if result == MARK {
                output.write_all(b" -")?;
            } else {
                write!(output, " {result}")?;
            }
            next = i + 1;
        }
    }
    Ok(())
}

fn time<W: Write>(
    output: &mut W,
    bytes: &[u8],
    results: &mut [i64],
    arcs: &mut [u32],
) -> io::Result<()> {
    match timing::timing(bytes, results, arcs) {
        Ok(Answer::Growing { arcs, gain }) => write!(output, "loop {arcs} {}:", Printed(gain))?,
        Ok(Answer::Timed { setups, holds }) => write!(output, "timed {setups} {holds}")?,
        Err(refusal) => write!(output, "{refusal}")?,
    }
    say_arcs(output, arcs)?;
    say_results(output, results)?;
    writeln!(output)
}

fn ask<W: Write>(
    output: &mut W,
    bytes: &[u8],
    synchronizer: u32,
    arcs: &mut [u32],
) -> io::Result<()> {
    write!(output, "path {synchronizer}")?;
    match timing::path(bytes, synchronizer, arcs) {
        Ok(path) => write!(output, " launch {} arcs {}:", path.launch, path.count)?,
        Err(refusal) => write!(output, " {refusal}")?,
    }
    say_arcs(output, arcs)?;
    writeln!(output)
}

// What stands at the front of a frame: how long its name and its image are, how many places are lent, and which paths are asked for.
#[derive(Clone, Copy)]
struct Frame {
    name: usize,
    image: usize,
    results: usize,
    arcs: usize,
    first: u32,
    end: u32,
    ghost name_fits: { name ≤ 64 },
    ghost image_fits: { image ≤ 65536 },
    ghost results_fit: { results ≤ 3100 },
    ghost arcs_fit: { arcs ≤ 600 },
}

impl Frame {
    // None where the frame is longer than the buffers.
    fn read(head: &[u8; 24]) -> Option<Frame> {
        let name = image::word(head, 0) as usize;
        let image = image::word(head, 4) as usize;
        let results = image::word(head, 8) as usize;
        let arcs = image::word(head, 12) as usize;
        if name > LONGEST_NAME
            || image > LONGEST_IMAGE
            || results > MOST_RESULTS
            || arcs > MOST_ARCS
        {
            return None;
        }
        Some(Frame {
            name,
            image,
            results,
            arcs,
            first: image::word(head, 16),
            end: image::word(head, 20),
        })
    }

    // Times the image and asks for the paths. Each call is lent the front of an array.
    fn answer<W: Write>(&self, output: &mut W, bytes: &[u8]) -> io::Result<()> {
        let mut results = [STAYED; MOST_RESULTS];
        let mut arcs = [ARC_STAYED; MOST_ARCS];
        time(
            output,
            bytes,
            &mut results[..self.results],
            &mut arcs[..self.arcs],
        )?;
        for synchronizer in self.first..self.end {
            let mut arcs = [ARC_STAYED; MOST_ARCS];
            ask(output, bytes, synchronizer, &mut arcs[..self.arcs])?;
        }
        Ok(())
    }
}

// Where a frame is at fault: says so, and answers that the run ends. image_cases has the same, with the same limits,
// and takes frames alike. No plainer as functions of a third crate: heads and what is printed differ, so they would be handed closures over both streams.
fn stop<W: Write>(output: &mut W, text: &str) -> io::Result<bool> {
    writeln!(output, "{text}")?;
    Ok(false)
}

// Takes one frame, and answers whether to go on.
fn run_frame<R: Read, W: Write>(input: &mut R, output: &mut W) -> io::Result<bool> {
    // Arrays stand first: compiled code clears what a function holds at its entry, and would clear one that is made later a second time.
    let mut name = [0u8; LONGEST_NAME];
    let mut bytes = [0u8; LONGEST_IMAGE];
    let mut head = [0u8; 24];
    let got = read_full(input, &mut head)?;
    if got == 0 {
        return Ok(false);
    }
    if got < head.len() {
        return stop(output, "frame cut short");
    }
    let Some(frame) = Frame::read(&head) else {
        return stop(output, "frame too long");
    };
    let name = &mut name[..frame.name];
    let bytes = &mut bytes[..frame.image];
    if read_full(input, name)? < name.len() || read_full(input, bytes)? < bytes.len() {
        return stop(output, "frame cut short");
    }
    output.write_all(name)?;
    writeln!(output)?;
    frame.answer(output, bytes)?;
    Ok(true)
}

// A proved loop has to end, and nothing says that the input does: the turns count up to a number that no run
// reaches.
fn main(rt: HostRuntime) -> io::Result<()> {
    let mut input = rt.stdin();
    let mut output = rt.stdout();
    for _ in 0..u64::MAX {
        if !run_frame(&mut input, &mut output)? {
            break;
        }
    }
    Ok(())
}
