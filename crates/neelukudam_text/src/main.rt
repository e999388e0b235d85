// The program: reads a text from standard input and writes its image to standard output. A refusal goes to standard error, and then nothing
// goes to standard output. All that it says is worked out by the library.
#![tactic(auto)]

ghost use Rattle.std.specs.Prelude.{◌≡◌, ◌+◌, ◌≤◌, length, OnOk, IfSome};
ghost use Rattle.std.specs.Io.KnownBytes.{Appends};
ghost use Rattle.grammar.specs.Text.{longest_text};
ghost use Rattle.neelukudam_text.specs.Promise.{Whole, refusal_line, Shows, Answers};

use image::{Image, Refusal};
use std::io;
use std::io::{Read, Write};
use streams::read_full;
use text::{LONGEST, image_from_text};

// One byte more than the longest text has, so that a longer one is seen to be too long.
const MOST_READ: usize = LONGEST + 1;

// Room for the largest image. `text` has the same inside: no plainer to export it, since it is a constant of `image` in another type.
const ROOM: usize = Image::MOST_BYTES as usize;

// The image of a whole input, of which a buffer holds the front, `size` bytes. The buffer has room for more than the longest text has, so what
// follows changes nothing. Text and size stay two: the promises `Whole` and `Shows` speak of the buffer and of how much of it was read.
fn make_all(text: &[u8], size: usize, image: &mut [u8; ROOM]) -> Result<u32, Refusal>
    requires text_len { length text.now ≡ longest_text + 1 }
    requires size_in_bounds { size ≤ length text.now }
    ensures { Whole text.now size image.old result image.new }
{
    image_from_text(&text[..size], image)
}

// A refusal, in the words of a report. It stands apart: tried in the arm of `print_image`, what `writeln!` wrote is lost there and the goal stays open.
fn print_refusal<W: Write>(refusals: &mut W, refusal: Refusal) -> io::Result<()>
    ensures { OnOk result (Appends (W.contents refusals.old) (W.contents refusals.new) (refusal_line refusal)) }
{
    writeln!(refusals, "{refusal}")
}

// Writes that image, or what the text is refused for.
#[tactic(auto, using(crate::proofs::Whole::image_shown, crate::proofs::Whole::refusal_shown))]
fn print_image<W: Write, V: Write>(
    output: &mut W,
    refusals: &mut V,
    text: &[u8],
    size: usize,
) -> io::Result<()>
    requires text_len { length text.now ≡ longest_text + 1 }
    requires size_in_bounds { size ≤ length text.now }
    ensures { OnOk result (Shows text.now size (W.contents output.old) (W.contents output.new) (V.contents refusals.old) (V.contents refusals.new)) }
{
    let mut image = [0u8; ROOM];
    match make_all(text, size, &mut image) {
        Ok(bytes) => output.write_all(&image[..bytes as usize]),
        Err(refusal) => print_refusal(refusals, refusal),
    }
}

// Reads a text and writes its image, or what the text is refused for. Where the bytes of the input are known, the answer is that for all of
// them.
fn run<R: Read, W: Write, V: Write>(
    input: &mut R,
    output: &mut W,
    refusals: &mut V,
) -> io::Result<()>
    ensures { OnOk result (IfSome (R.remaining input.old) (λ all. Answers all (W.contents output.old) (W.contents output.new) (V.contents refusals.old) (V.contents refusals.new))) }
{
    let mut text = [0u8; MOST_READ];
    let size = read_full(input, &mut text)?;
    print_image(output, refusals, &text, size)
}

fn main(rt: HostRuntime) -> io::Result<()> {
    run(&mut rt.stdin(), &mut rt.stdout(), &mut rt.stderr())
}
