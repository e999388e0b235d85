// One record of a table, at the byte where it starts. Past the end of the image every field reads 0.
ghost use Rattle.std.specs.Prelude.{◌≡◌, ℕ, ◌+◌, ◌≤◌, List, length};
ghost use Rattle.image.specs.Words.{word_at};
ghost use Rattle.image.specs.Header.{phase_bytes, synchronizer_bytes, arc_bytes};
ghost use Rattle.image.specs.Records.{place_of, phase_from, synchronizer_from, arc_from};
ghost use Rattle.image.specs.declared.header.Layout.{Layout};
ghost use Rattle.image.specs.declared.header.Image.{Image};

use crate::bytes::{fits, whole, word};
use crate::header::{Image, Layout};

// When a phase closes, and how long it is active before that.
#[derive(Clone, Copy)]
pub struct Phase {
    pub closing: u32,
    pub active: u32,
}

#[derive(Clone, Copy)]
pub struct Synchronizer {
    pub phase: u32,
    // The number of a `Kind`, or any other: `read` promises the word that stands there, on any bytes, before rule 7 judges it.
    pub kind: u32,
    pub setup: u32,
    pub hold: u32,
    pub least: u32,
    pub greatest: u32,
}

#[derive(Clone, Copy)]
pub struct Arc {
    pub from: u32,
    pub to: u32,
    pub least: u32,
    pub greatest: u32,
}

// The byte at which a record starts. Numbers of 32 bits leave room for the record's own bytes behind it.
pub(crate) fn place(table: u32, size: u32, i: u32) -> usize
    ensures value { result ≡ place_of table size i }
    ensures upper_bound { result ≤ 18446744069414584320 }
{
    (table as usize) + (size as usize) * (i as usize)
}

// The field that stands k bytes into the record at a place.
#[tactic(auto, using(crate::proofs::Words::word_past))]
fn field(bytes: &[u8], at: usize, k: u8) -> u32
    ensures { result ≡ word_at bytes.now (at + k) }
{
    if at < bytes.len() {
        word(bytes, at + (k as usize))
    } else {
        0
    }
}

// A kind of record, as an image stores it: how its fields lie behind a byte, and where its table lies. The byte is a number, and no slice begins
// there: it may lie past the end.
pub trait Stored: Copy {
    // The record that starts at a byte.
    ghost from: { List ℕ → ℕ → Self };

    ghost BYTES: { ℕ };

    ghost table: { Layout → ℕ };

    ghost size: { Layout → ℕ };

    ghost count: { Image → ℕ };

    // The bytes that the fields take. A layout may give a record more.
    const BYTES: u32;

    // At any place: field by field.
    fn cut(bytes: &[u8], at: usize) -> Self
        ensures { result ≡ from bytes.now at };

    // Where the table starts.
    fn table(layout: Layout) -> u32
        ensures { result ≡ table layout };

    // The bytes of a record, with what the layout gives it besides.
    fn size(layout: Layout) -> u32
        ensures { result ≡ size layout };

    // How many there are.
    fn count(image: Image) -> u32
        ensures { result ≡ count image };

    // At any place: whole where all its bytes are there, or else field by field.
    fn at(bytes: &[u8], at: usize) -> Self
        ensures { result ≡ from bytes.now at };
}

// What asks for a place that has all the record's bytes. It stands apart from `Stored`, whose functions every caller of the exported `Record` has: no
// public function asks anything.
pub(crate) trait Whole: Stored {
    fn whole(bytes: &[u8], at: usize) -> Self
        requires { at + Self.BYTES ≤ length bytes.now }
        ensures { result ≡ Self.from bytes.now at };
}

impl Stored for Phase {
    ghost from = { phase_from };

    ghost BYTES = { phase_bytes };

    ghost table = { λ layout. layout.phases };

    ghost size = { λ _. phase_bytes };

    ghost count = { λ image. image.phases };

    const BYTES: u32 = Image::PHASE_BYTES;

    fn cut(bytes: &[u8], at: usize) -> Phase {
        let s = Synchronizer::cut(bytes, at);
        Phase {
            closing: s.phase,
            active: s.kind,
        }
    }

    fn table(layout: Layout) -> u32 {
        layout.phases
    }

    fn size(_layout: Layout) -> u32 {
        Image::PHASE_BYTES
    }

    fn count(image: Image) -> u32 {
        image.phases
    }

    fn at(bytes: &[u8], at: usize) -> Phase {
        if fits(at, Image::PHASE_BYTES as usize, bytes.len()) {
            Phase::whole(bytes, at)
        } else {
            Phase::cut(bytes, at)
        }
    }
}

impl Whole for Phase {
    fn whole(bytes: &[u8], at: usize) -> Phase {
        Phase {
            closing: whole(bytes, at),
            active: whole(bytes, at + 4),
        }
    }
}

impl Stored for Synchronizer {
    ghost from = { synchronizer_from };

    ghost BYTES = { synchronizer_bytes };

    ghost table = { λ layout. layout.synchronizers };

    ghost size = { λ layout. layout.synchronizer_bytes };

    ghost count = { λ image. image.synchronizers };

    const BYTES: u32 = Image::SYNCHRONIZER_BYTES;

    // Phases and arcs that the end of the image cuts off are read by this too, as the first two words and the first four. So it stands apart
    // in the compiled code, and what is left of the others is small enough to vanish into their callers.
    fn cut(bytes: &[u8], at: usize) -> Synchronizer {
        Synchronizer {
            phase: word(bytes, at),
            kind: field(bytes, at, 4),
            setup: field(bytes, at, 8),
            hold: field(bytes, at, 12),
            least: field(bytes, at, 16),
            greatest: field(bytes, at, 20),
        }
    }

    fn table(layout: Layout) -> u32 {
        layout.synchronizers
    }

    fn size(layout: Layout) -> u32 {
        layout.synchronizer_bytes
    }

    fn count(image: Image) -> u32 {
        image.synchronizers
    }

    fn at(bytes: &[u8], at: usize) -> Synchronizer {
        if fits(at, Image::SYNCHRONIZER_BYTES as usize, bytes.len()) {
            Synchronizer::whole(bytes, at)
        } else {
            Synchronizer::cut(bytes, at)
        }
    }
}

impl Whole for Synchronizer {
    fn whole(bytes: &[u8], at: usize) -> Synchronizer {
        Synchronizer {
            phase: whole(bytes, at),
            kind: whole(bytes, at + 4),
            setup: whole(bytes, at + 8),
            hold: whole(bytes, at + 12),
            least: whole(bytes, at + 16),
            greatest: whole(bytes, at + 20),
        }
    }
}

impl Stored for Arc {
    ghost from = { arc_from };

    ghost BYTES = { arc_bytes };

    ghost table = { λ layout. layout.arcs };

    ghost size = { λ _. arc_bytes };

    ghost count = { λ image. image.arcs };

    const BYTES: u32 = Image::ARC_BYTES;

    fn cut(bytes: &[u8], at: usize) -> Arc {
        let s = Synchronizer::cut(bytes, at);
        Arc {
            from: s.phase,
            to: s.kind,
            least: s.setup,
            greatest: s.hold,
        }
    }

    fn table(layout: Layout) -> u32 {
        layout.arcs
    }

    fn size(_layout: Layout) -> u32 {
        Image::ARC_BYTES
    }

    fn count(image: Image) -> u32 {
        image.arcs
    }

    fn at(bytes: &[u8], at: usize) -> Arc {
        if fits(at, Image::ARC_BYTES as usize, bytes.len()) {
            Arc::whole(bytes, at)
        } else {
            Arc::cut(bytes, at)
        }
    }
}

impl Whole for Arc {
    fn whole(bytes: &[u8], at: usize) -> Arc {
        Arc {
            from: whole(bytes, at),
            to: whole(bytes, at + 4),
            least: whole(bytes, at + 8),
            greatest: whole(bytes, at + 12),
        }
    }
}
