// The program: reads a circuit image from standard input and prints its report, nothing else. All that it says is worked out by the library.
#![tactic(auto)]

ghost use Rattle.std.specs.Prelude.{◌≡◌, ◌+◌, ◌≤◌, length, OnOk, IfSome};
ghost use Rattle.image.specs.Header.{most_bytes};
ghost use Rattle.neelukudam.specs.Promise.{Whole, Shows, Reports};

use image::Image;
use report::{LONGEST, report};
use std::io;
use std::io::{Read, Write};
use streams::read_full;

// One byte more than the largest image has, so that a longer one is seen to be too long.
const MOST_READ: usize = (Image::MOST_BYTES as usize) + 1;

// The report of a whole input, of which a buffer holds the front, `size` bytes. The buffer has room for more than the largest image has, so
// what follows changes nothing. Bytes and size stay two: the promises `Whole` and `Shows` speak of the buffer and of how much of it was read.
fn report_all(bytes: &[u8], size: usize, text: &mut [u8; LONGEST]) -> usize
    requires bytes_len { length bytes.now ≡ most_bytes + 1 }
    requires size_in_bounds { size ≤ length bytes.now }
    ensures { Whole bytes.now size text.old result text.new }
{
    report(&bytes[..size], text)
}

// Prints that report.
#[tactic(auto, using(crate::proofs::Whole::shows))]
fn print_report<W: Write>(output: &mut W, bytes: &[u8], size: usize) -> io::Result<()>
    requires bytes_len { length bytes.now ≡ most_bytes + 1 }
    requires size_in_bounds { size ≤ length bytes.now }
    ensures { OnOk result (Shows bytes.now size (W.contents output.old) (W.contents output.new)) }
{
    let mut text = [0u8; LONGEST];
    let told = report_all(bytes, size, &mut text);
    output.write_all(&text[..told])
}

// Reads an image and prints its report. Where the bytes of the input are known, what is printed is the report of all of them.
fn run<R: Read, W: Write>(input: &mut R, output: &mut W) -> io::Result<()>
    ensures { OnOk result (IfSome (R.remaining input.old) (λ all. Reports all (W.contents output.old) (W.contents output.new))) }
{
    let mut bytes = [0u8; MOST_READ];
    let size = read_full(input, &mut bytes)?;
    print_report(output, &bytes, size)
}

fn main(rt: HostRuntime) -> io::Result<()> {
    run(&mut rt.stdin(), &mut rt.stdout())
}
