// Runs image::check on images whose answers are known, so that the reader can be held against a second one.
// tests/image_cases.py makes the images, says by docs/RULES.md what each must give, and writes both files: stdin and stdout.
//
// Standard input holds frames. A frame is two words of 32 bits, the length of a name and the length of an image,
// and then the bytes of the name and of the image. For each frame one line is printed: the name, then `good`, or
// `refused` with the number of the rule and the record. Where a frame is longer than the buffers, or the input
// ends inside it, a line says so and the run ends.
#![tactic(auto)]

use std::io;
use std::io::{Read, Write};
use streams::read_full;

const LONGEST_NAME: usize = 64;

const LONGEST_IMAGE: usize = 65_536;

// Where a frame is at fault: says so, and answers that the run ends. timing_cases has the same, with the same limits,
// and takes frames alike. No plainer as functions of a third crate: heads and what is printed differ, so they would be handed closures over both streams.
fn stop<W: Write>(output: &mut W, text: &str) -> io::Result<bool> {
    writeln!(output, "{text}")?;
    Ok(false)
}

fn print_answer<W: Write>(output: &mut W, bytes: &[u8]) -> io::Result<()> {
    match image::check(bytes) {
        Ok(_) => writeln!(output, " good"),
        Err(refusal) => writeln!(output, " {refusal}"),
    }
}

// Takes one frame, and answers whether to go on. It is lent room for the name and the image, which `main` clears once and not for each frame.
fn run_frame<R: Read, W: Write>(
    input: &mut R,
    output: &mut W,
    name: &mut [u8; LONGEST_NAME],
    bytes: &mut [u8; LONGEST_IMAGE],
) -> io::Result<bool> {
    let mut head = [0u8; 8];
    let got = read_full(input, &mut head)?;
    if got == 0 {
        return Ok(false);
    }
    if got < head.len() {
        return stop(output, "frame cut short");
    }
    let name_length = image::word(&head, 0) as usize;
    let image_length = image::word(&head, 4) as usize;
    if name_length > LONGEST_NAME || image_length > LONGEST_IMAGE {
        return stop(output, "frame too long");
    }
    let name = &mut name[..name_length];
    let bytes = &mut bytes[..image_length];
    if read_full(input, name)? < name.len() || read_full(input, bytes)? < bytes.len() {
        return stop(output, "frame cut short");
    }
    output.write_all(name)?;
    print_answer(output, bytes)?;
    Ok(true)
}

// A proved loop has to end, and nothing says that the input does: the turns count up to a number that no run
// reaches.
fn main(rt: HostRuntime) -> io::Result<()> {
    let mut input = rt.stdin();
    let mut output = rt.stdout();
    let mut name = [0u8; LONGEST_NAME];
    let mut bytes = [0u8; LONGEST_IMAGE];
    for _ in 0..u64::MAX {
        if !run_frame(&mut input, &mut output, &mut name, &mut bytes)? {
            break;
        }
    }
    Ok(())
}
