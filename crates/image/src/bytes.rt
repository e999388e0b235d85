// Words of four bytes, the least significant first. Past the end of the image every byte reads 0.
// A word that lies whole within the image is read without asking of each byte; nearly all do.
ghost use Rattle.std.specs.Prelude.{◌≡◌, ◌+◌, ◌≤◌, length};
ghost use Rattle.image.specs.Words.{fits_of, byte_at, word_at};

// Do `size` bytes from a place on end no later than at `end`?
pub(crate) fn fits(at: usize, size: usize, end: usize) -> bool
    ensures { result ≡ fits_of at size end }
{
    at <= end && size <= end - at
}

pub fn byte(bytes: &[u8], at: usize) -> u8
    ensures { result ≡ byte_at bytes.now at }
{
    if at < bytes.len() { bytes[at] } else { 0 }
}

// The word at a place that has four bytes.
#[tactic(auto, unfolding(crate::specs::Words::word_at))]
pub(crate) fn whole(bytes: &[u8], at: usize) -> u32
    requires { at + 4 ≤ length bytes.now }
    ensures { result ≡ word_at bytes.now at }
{
    u32::from_le_bytes([bytes[at], bytes[at + 1], bytes[at + 2], bytes[at + 3]])
}

// The word at any place: byte by byte.
#[tactic(auto, using(crate::proofs::Words::word_past), unfolding(crate::specs::Words::word_at))]
fn cut(bytes: &[u8], at: usize) -> u32
    ensures { result ≡ word_at bytes.now at }
{
    if at < bytes.len() {
        u32::from_le_bytes([
            byte(bytes, at),
            byte(bytes, at + 1),
            byte(bytes, at + 2),
            byte(bytes, at + 3),
        ])
    } else {
        0
    }
}

pub fn word(bytes: &[u8], at: usize) -> u32
    ensures { result ≡ word_at bytes.now at }
{
    if fits(at, 4, bytes.len()) {
        whole(bytes, at)
    } else {
        cut(bytes, at)
    }
}
