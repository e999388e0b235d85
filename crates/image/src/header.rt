// The image kind: its limits, its header, and where its tables lie.
ghost use Rattle.std.specs.Prelude.{◌≡◌};
ghost use Rattle.image.specs.Header.{header_of, image_of, offset_of};

use crate::bytes::word;

// The eight words at the start of an image.
#[derive(Clone, Copy)]
pub struct Header {
    pub version: u32,
    pub cycle: u32,
    pub phases: u32,
    pub synchronizers: u32,
    pub arcs: u32,
    pub phase_table: u32,
    pub synchronizer_table: u32,
    pub arc_table: u32,
}

// Where the records lie: the byte at which each table starts, and the bytes of a synchronizer's record. Whoever reads
// a record is handed this and computes no offset.
#[derive(Clone, Copy)]
pub struct Layout {
    pub phases: u32,
    pub synchronizers: u32,
    pub arcs: u32,
    pub synchronizer_bytes: u32,
}

// What an image says of itself: the cycle, how many records each table has, and where they lie.
#[derive(Clone, Copy)]
pub struct Image {
    pub cycle: u32,
    pub phases: u32,
    pub synchronizers: u32,
    pub arcs: u32,
    pub layout: Layout,
}

// The parts of an image after its header, in their order, and the end.
#[derive(Clone, Copy)]
pub enum Part {
    Phases,
    Synchronizers,
    Arcs,
    End,
}

// The sizes below, in the type of an offset.
const HEADER: u64 = Image::HEADER_BYTES as u64;

const PHASE: u64 = Image::PHASE_BYTES as u64;

const SYNCHRONIZER: u64 = Image::SYNCHRONIZER_BYTES as u64;

const ARC: u64 = Image::ARC_BYTES as u64;

impl Image {
    pub const VERSION: u32 = 1;

    pub const MOST_PHASES: u32 = 16;

    pub const MOST_SYNCHRONIZERS: u32 = 512;

    pub const MOST_ARCS: u32 = 2048;

    pub const LONGEST_CYCLE: u32 = 1_000_000_000;

    pub const LONGEST_DELAY: u32 = 1_000_000_000;

    pub const HEADER_BYTES: u32 = 32;

    pub const PHASE_BYTES: u32 = 8;

    pub const SYNCHRONIZER_BYTES: u32 = 24;

    pub const ARC_BYTES: u32 = 16;

    // The bytes of the largest image. Of an input, one more is enough to read: a longer one is then seen to be too long.
    pub const MOST_BYTES: u32 = Image::HEADER_BYTES
        + Image::PHASE_BYTES * Image::MOST_PHASES
        + Image::SYNCHRONIZER_BYTES * Image::MOST_SYNCHRONIZERS
        + Image::ARC_BYTES * Image::MOST_ARCS;

    // The byte at which a part starts, where the tables follow each other without gaps. The counts may be any
    // numbers, also such as rule 4 refuses.
    pub fn offset(part: Part, phases: u32, synchronizers: u32, arcs: u32) -> u64
        ensures { result ≡ offset_of part phases synchronizers arcs }
    {
        let second = HEADER + PHASE * (phases as u64);
        let third = second + SYNCHRONIZER * (synchronizers as u64);
        match part {
            Part::Phases => HEADER,
            Part::Synchronizers => second,
            Part::Arcs => third,
            Part::End => third + ARC * (arcs as u64),
        }
    }
}

impl Header {
    #[tactic(auto, unfolding(crate::specs::Header::header_of))]
    pub fn read(bytes: &[u8]) -> Header
        ensures { result ≡ header_of bytes.now }
    {
        Header {
            version: word(bytes, 0),
            cycle: word(bytes, 4),
            phases: word(bytes, 8),
            synchronizers: word(bytes, 12),
            arcs: word(bytes, 16),
            phase_table: word(bytes, 20),
            synchronizer_table: word(bytes, 24),
            arc_table: word(bytes, 28),
        }
    }
}

// The tables start where the header says, which rule 5 holds to the offsets above.
impl From<Header> for Image {
    ghost from_gives = { λ header image. image ≡ image_of header };

    fn from(header: Header) -> Image {
        Image {
            cycle: header.cycle,
            phases: header.phases,
            synchronizers: header.synchronizers,
            arcs: header.arcs,
            layout: Layout {
                phases: header.phase_table,
                synchronizers: header.synchronizer_table,
                arcs: header.arc_table,
                synchronizer_bytes: Image::SYNCHRONIZER_BYTES,
            },
        }
    }
}

impl Image {
    // The conversion, under the name that docs/PROMISES.md promises.
    pub fn of(header: Header) -> Image
        ensures { result ≡ image_of header }
    {
        Image::from(header)
    }
}
