// The calls that C is offered, as functions of a library, of which laws can be said; the crate interface_c exports the same five, since C links a static
// library.
ghost use Rattle.interface.specs.Promise.{CheckForC, TimingForC, PathForC, ReportForC, TextForC};

use crate::check_answer::CheckAnswer;
use crate::path_answer::PathAnswer;
use crate::text_answer::TextAnswer;
use crate::timing_answer::TimingAnswer;
use image::check;
use report::{LONGEST, report};
use text::image_from_text;
use timing::{path, timing};

// Is the image good, and what does it say of itself?
pub fn neelukudam_check(bytes: &[u8]) -> CheckAnswer
    ensures { CheckForC bytes.now result }
{
    check(bytes).into()
}

// Times the circuit.
pub fn neelukudam_timing(bytes: &[u8], results: &mut [i64], arcs: &mut [u32]) -> TimingAnswer
    ensures { TimingForC bytes.now results.old arcs.old result results.new arcs.new }
{
    timing(bytes, results, arcs).into()
}

// Which way the late arrival at a synchronizer came.
pub fn neelukudam_path(bytes: &[u8], synchronizer: u32, arcs: &mut [u32]) -> PathAnswer
    ensures { PathForC bytes.now synchronizer arcs.old result arcs.new }
{
    path(bytes, synchronizer, arcs).into()
}

// The length of the report. It is written if the buffer is long enough for all of it; otherwise the buffer stays as it is.
pub fn neelukudam_report(bytes: &[u8], text: &mut [u8]) -> usize
    ensures { ReportForC bytes.now text.old result text.new }
{
    let mut whole = [0u8; LONGEST];
    let size = report(bytes, &mut whole);
    let room = text.len();
    if room < size {
        return size;
    }
    text[..size].copy_from_slice(&whole[..size]);
    size
}

// The image of a written circuit.
pub fn neelukudam_image_from_text(text: &[u8], image: &mut [u8]) -> TextAnswer
    ensures { TextForC text.now image.old result image.new }
{
    image_from_text(text, image).into()
}
