// The call: what timing answers, told as text.
ghost use Rattle.std.specs.Prelude.{◌≡◌, ◌*◌, ◌≤◌, length};
ghost use Rattle.image.specs.Refusal.{number_of};
ghost use Rattle.report.specs.Limits.{LONGEST};
ghost use Rattle.report.specs.Inside.Pieces.{refused_pieces, loop_pieces, timed_pieces};
ghost use Rattle.report.specs.Inside.Written.{AtFront, joined, lengths};
ghost use Rattle.report.specs.Promise.{Report};

use crate::page::Page;
use image::{Image, Refusal, word};
use timing::{Answer, timing};

// The buffers that timing is lent have one arc for each synchronizer, and six numbers.
const LENT_ARCS: usize = Image::MOST_SYNCHRONIZERS as usize;

const LENT_NUMBERS: usize = 6 * LENT_ARCS;

// The longest first line, `timed 512 512 512`: a word of 5 letters, three times a space and 3 digits, a line feed.
const FIRST_LINE: usize = 5 + 3 * (1 + 3) + 1;

// The longest line of a synchronizer: 3 digits, six times a space with a sign and 13 digits, a line feed.
const ROW: usize = 3 + 6 * (1 + 1 + 13) + 1;

// No report has more bytes.
pub const LONGEST: usize = FIRST_LINE + ROW * (Image::MOST_SYNCHRONIZERS as usize);

// `refused NUMBER RECORD`.
fn tell_refused(refusal: Refusal, text: &mut [u8]) -> usize
    requires { lengths (refused_pieces (number_of refusal.rule) refusal.«record») ≤ length text.old }
    ensures { AtFront (joined (refused_pieces (number_of refusal.rule) refusal.«record»)) text.old result text.new }
{
    let mut page = Page::new(text);
    page.write(b"refused");
    page.write_number(refusal.rule.number());
    page.write_number(refusal.record);
    page.end_line();
    page.finish()
}

// `loop ARCS GAIN`, then the arcs. The count stands beside the buffer, as in `loop_pieces`.
fn tell_loop(count: u32, gain: i64, arcs: &[u32], text: &mut [u8]) -> usize
    requires count_in_bounds { count ≤ length arcs.now }
    requires arcs_in_bounds { lengths (loop_pieces count gain arcs.now) ≤ length text.old }
    ensures { AtFront (joined (loop_pieces count gain arcs.now)) text.old result text.new }
{
    let mut page = Page::new(text);
    page.write(b"loop");
    page.write_number(count);
    page.write_gain(gain);
    page.end_line();
    page.write_arcs(&arcs[..count as usize]);
    page.finish()
}

// `timed SYNCHRONIZERS SETUPS HOLDS`, then a line for each synchronizer. Their number stands beside the buffer, as in `timed_pieces`.
fn tell_timed(l: u32, setups: u32, holds: u32, numbers: &[i64], text: &mut [u8]) -> usize
    requires l_in_bounds { 6 * l ≤ length numbers.now }
    requires numbers_in_bounds { lengths (timed_pieces l setups holds numbers.now) ≤ length text.old }
    ensures { AtFront (joined (timed_pieces l setups holds numbers.now)) text.old result text.new }
{
    let mut page = Page::new(text);
    page.write(b"timed");
    page.write_number(l);
    page.write_number(setups);
    page.write_number(holds);
    page.end_line();
    page.write_rows(&numbers[..6 * l as usize]);
    page.finish()
}

// The report of an image, in a buffer that is long enough for any. Timing gets buffers that are long enough for every good image, so it
// never asks for more.
fn tell(bytes: &[u8], text: &mut [u8]) -> usize
    requires { length text.old ≡ LONGEST }
    ensures { Report bytes.now text.old result text.new }
{
    let mut numbers = [0i64; LENT_NUMBERS];
    let mut arcs = [0u32; LENT_ARCS];
    match timing(bytes, &mut numbers, &mut arcs) {
        Err(refusal) => tell_refused(refusal, text),
        Ok(Answer::Growing { arcs: count, gain }) => tell_loop(count, gain, &arcs, text),
        Ok(Answer::Timed { setups, holds }) => {
            tell_timed(word(bytes, 12), setups, holds, &numbers, text)
        }
    }
}

// Writes the report of an image at the front of the buffer and returns its length. The rest of the buffer stays.
pub fn report(bytes: &[u8], text: &mut [u8; LONGEST]) -> usize
    ensures { Report bytes.now text.old result text.new }
{
    tell(bytes, text)
}
