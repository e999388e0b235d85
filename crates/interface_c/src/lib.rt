// The functions that C calls, each under the name that include/neelukudam.h has: the library's call of that name, with its clauses. A slice is a
// pointer and a length to C.
#![tactic(auto)]

ghost use Rattle.interface.specs.Promise.{CheckForC, TimingForC, PathForC, ReportForC, TextForC};

use interface::{CheckAnswer, PathAnswer, TextAnswer, TimingAnswer};

// Is the image good, and what does it say of itself?
#[unsafe(no_mangle)]
pub extern "C" fn neelukudam_check(bytes: &[u8]) -> CheckAnswer
    ensures { CheckForC bytes.now result }
{
    interface::neelukudam_check(bytes)
}

// Times the circuit.
#[unsafe(no_mangle)]
pub extern "C" fn neelukudam_timing(
    bytes: &[u8],
    results: &mut [i64],
    arcs: &mut [u32],
) -> TimingAnswer
    ensures { TimingForC bytes.now results.old arcs.old result results.new arcs.new }
{
    interface::neelukudam_timing(bytes, results, arcs)
}

// Which way the late arrival at a synchronizer came.
#[unsafe(no_mangle)]
pub extern "C" fn neelukudam_path(bytes: &[u8], synchronizer: u32, arcs: &mut [u32]) -> PathAnswer
    ensures { PathForC bytes.now synchronizer arcs.old result arcs.new }
{
    interface::neelukudam_path(bytes, synchronizer, arcs)
}

// The length of the report. It is written if the buffer is long enough for all of it; otherwise the buffer stays as it is.
#[unsafe(no_mangle)]
pub extern "C" fn neelukudam_report(bytes: &[u8], text: &mut [u8]) -> usize
    ensures { ReportForC bytes.now text.old result text.new }
{
    interface::neelukudam_report(bytes, text)
}

// The image of a written circuit.
#[unsafe(no_mangle)]
pub extern "C" fn neelukudam_image_from_text(text: &[u8], image: &mut [u8]) -> TextAnswer
    ensures { TextForC text.now image.old result image.new }
{
    interface::neelukudam_image_from_text(text, image)
}
